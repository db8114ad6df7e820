// Rehearses what is to be written on a tag: reads a script, and prints what each of its commands did.
#![tactic(auto)]

mod answer;
mod command;
mod desk;
mod draft;
mod dump;
mod fields;
mod hex;
mod kept_session;
mod line_error;
mod listing;
mod memories;
mod new_tag;
mod refused;
mod rehearsal;
mod script;
mod session;
mod span;
mod tags;
mod uid;
mod walk;
mod words;

fn main(rt: HostRuntime) -> anyhow::Result<()> {
    script::play(&rt)
}
