// The events and replies of a log, one after the other.
ghost use Rattle.std.specs.Prelude.{◌-◌, ◌<◌, ◌^◌, length};
ghost use Rattle.std.specs.Iterator.{at_most};

use session_log::{Head, ITEM_OCTETS};

// An event or a reply of a log: where it stands, its head and its own octets.
#[derive(Clone, Copy)]
pub(crate) struct Item<'a> {
    pub(crate) at: usize,
    pub(crate) head: Head,
    pub(crate) octets: &'a [u8],
    ghost low: { at < 2 ^ 63 },
}

// The events or the replies from a place of a log on.
#[derive(Drop)]
pub(crate) struct Items<'a> {
    log: &'a [u8],
    at: usize,
}

impl<'a> Items<'a> {
    // Those of a log, from this place on.
    pub(crate) fn new(log: &'a [u8], at: usize) -> Items<'a> {
        Items { log, at }
    }
}

impl<'a> Iterator for Items<'a> {
    type Item = Item<'a>;

    ghost remaining = { λ s. at_most (length s.log.now - s.at) };

    fn next(&mut self) -> Option<Item<'a>> {
        let at = self.at;
        let rest = self.log.get(at..)?;
        let head = session_log::head_at(rest, 0);
        let octets = rest.get(ITEM_OCTETS..ITEM_OCTETS + head[2] as usize)?;
        self.at += ITEM_OCTETS + octets.len();
        Some(Item { at, head, octets })
    }
}
