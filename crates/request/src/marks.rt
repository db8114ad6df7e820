// What a tag can do, fixed when it is made.
#[derive(Clone, Copy, PartialEq, Eq, Debug)]
pub struct Marks {
    // it knows the extended commands, with block numbers of two bytes
    pub wide: bool,
    // it reads several blocks at once
    pub multi: bool,
    // it locks blocks
    pub lockable: bool,
    // it writes and locks under the option flag, and only then
    pub special: bool,
}
