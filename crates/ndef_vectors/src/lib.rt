// Published NDEF messages, and damaged ones, against the reader and the composer.
#![tactic(auto)]

#[cfg(test)]
mod composing;
#[cfg(test)]
mod reading;
