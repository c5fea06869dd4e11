//! Streams, the clock and pauses of the standard library, as the programs use them.

ghost use Rattle.std.specs.Prelude.{◌≤◌, IfOk};

use std::io;
use vx_io::*;

/// A reader and a writer that a signal interrupts so often before it moves so many bytes, or errs.
#[derive(Drop)]
struct Stutter {
    interrupts: u32,
    moves: Option<usize>,
}

impl Stutter {
    fn step(&mut self, room: usize) -> io::Result<usize>
        ensures { IfOk result (λ n. n ≤ room) }
    {
        if self.interrupts > 0 {
            self.interrupts -= 1;
            return Err(io::Error::from(io::ErrorKind::Interrupted));
        }
        match self.moves {
            Some(count) => Ok(count.min(room)),
            None => Err(io::Error::from(io::ErrorKind::BrokenPipe)),
        }
    }
}

impl io::Read for Stutter {
    fn read(&mut self, buf: &mut [u8]) -> io::Result<usize> {
        let count = self.step(buf.len())?;
        let _front = &buf[..count];
        Ok(count)
    }
}

impl io::Write for Stutter {
    fn write(&mut self, buf: &[u8]) -> io::Result<usize> {
        self.step(buf.len())
    }

    fn flush(&mut self) -> io::Result<()> {
        Ok(())
    }
}

// What a source and a sink over a real stream answer where it is interrupted, gives, ends and errs.
static STUTTERS: [(u32, Option<usize>, ReadOut, WriteOut); 5] = [
    (0, Some(4), ReadOut::Got(4), WriteOut::Took(4)),
    (63, Some(9), ReadOut::Got(5), WriteOut::Took(5)),
    (64, Some(4), ReadOut::Failed, WriteOut::Failed),
    (2, Some(0), ReadOut::End, WriteOut::Failed),
    (0, None, ReadOut::Failed, WriteOut::Failed),
];

/// What a source and a sink over such streams answer.
fn stuttered(interrupts: u32, moves: Option<usize>) -> (ReadOut, WriteOut) {
    let read = StdSource::new(Stutter { interrupts, moves }).read(&mut [0; 5]);
    let written = StdSink::new(Stutter { interrupts, moves }).write(&[0; 5]);
    (read, written)
}

#[test]
fn real_streams_answer(rt: HostRuntime) {
    for (row, (interrupts, moves, read, written)) in STUTTERS.iter().enumerate() {
        let answers = stuttered(*interrupts, *moves);
        assert!(rt; answers == (*read, *written), "in row {row}");
    }
}

// How many milliseconds so many pauses take, one after another.
fn row_of<C: Clock, P: Pause>(clock: &mut C, pause: &mut P, times: u32) -> u64 {
    let before = clock.now();
    for _ in 0..times {
        pause.pause();
    }
    clock.now().saturating_sub(before)
}

// No pause is shorter than a tenth of a millisecond, and no whole one than a millisecond; a clock of whole milliseconds may tell
// one less. No clock of another unit tells so few.
#[test]
fn pauses_take_their_time(rt: HostRuntime) {
    let mut system = StdClock::new(&rt);
    let short = row_of(&mut system, &mut StdPause::new(&rt), 80);
    let whole = row_of(&mut system, &mut StdPause::whole(&rt), 20);
    assert!(rt;
        short >= 7 && whole >= 19 && whole < 60_000,
        "{short} and {whole}"
    );
}
