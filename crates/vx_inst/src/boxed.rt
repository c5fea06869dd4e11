//! An instrument in a box, whatever its kind.

use super::Instrument;
use vx_488::ManyGot;

/// A boxed instrument that may cross threads is an instrument: each call goes to the one in the box, and it is seen as that
/// one is seen.
impl Instrument for Box<dyn Instrument + Send> {
    ghost behaves = { λ b. (Instrument-box b).behaves b.value };

    ghost nature = { λ b. (Instrument-box b).nature b.value };

    fn can_take(&self) -> bool {
        (**self).can_take()
    }

    fn take(&mut self, b: u8, end: bool) {
        (**self).take(b, end);
    }

    fn take_many(&mut self, bytes: &[u8], end: bool) -> usize {
        (**self).take_many(bytes, end)
    }

    fn can_give(&self) -> bool {
        (**self).can_give()
    }

    fn give(&mut self) -> (u8, bool) {
        (**self).give()
    }

    fn give_many(&mut self, room: &mut [u8], stop: Option<u8>) -> ManyGot {
        (**self).give_many(room, stop)
    }

    fn poll(&mut self) -> u8 {
        (**self).poll()
    }

    fn requests(&self) -> bool {
        (**self).requests()
    }

    fn clear(&mut self) {
        (**self).clear();
    }

    fn trigger(&mut self) {
        (**self).trigger();
    }

    fn local(&mut self) {
        (**self).local();
    }

    fn set_status(&mut self, b: u8) {
        (**self).set_status(b);
    }

    fn moment(&mut self, now: u64) {
        (**self).moment(now);
    }
}
