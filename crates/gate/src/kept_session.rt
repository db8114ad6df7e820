// A session that was kept, as it is printed.
use memory::BlockLength;
use shown::Place;
use std::fmt;

#[derive(Clone, Copy)]
pub struct KeptSession {
    pub number: usize,
    pub unit: BlockLength,
    pub place: Place,
    pub exchanges: u64,
}

impl fmt::Display for KeptSession {
    fn fmt<W: fmt::Write>(&self, f: &mut fmt::Formatter<W>) -> fmt::Result {
        write!(
            f,
            "session {} block {} c {} p {} e {} exchanges {}",
            self.number,
            self.unit.bytes(),
            self.place.container.begin,
            self.place.at,
            self.place.container.end,
            self.exchanges,
        )
    }
}
