// What a call gives back, a lent buffer among it.
use trees::entry::Entry;
use trees::fault::Fault;

#[derive(Drop)]
pub enum Reply {
    Looked(Result<Entry, Fault>),
    Next(Result<Option<usize>, Fault>, Vec<u8>),
    Listed(Result<usize, Fault>, Vec<u8>),
    Room(usize),
    Need(Result<usize, Fault>),
    Edited(Result<(), Fault>),
}
