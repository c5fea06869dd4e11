//! What answers a message.
ghost use Rattle.std.specs.Prelude.{◌≡◌, ◌≤◌, ℕ, List, Option, length, take, option_map, IfSome};

/// What answers the messages of a stream, one after the other.
pub trait Answers: Sized {
    // It may be asked, as it is.
    ghost can: { Self → Type 0 };

    // What a message does: what answers it before, the message, the record of its reply, and what answers after. A message
    // without a reply is no message of this stream.
    ghost does: { Self → List ℕ → Option (List ℕ) → Self → Type 0 };

    // How long a message may be, and how much room a reply's record wants, in bytes.
    ghost longest: { ℕ };

    ghost room: { ℕ };

    /// Answers a message: the record of its reply, of so many bytes, stands at the front of `reply` then.
    fn answer(self, message: &[u8], reply: &mut [u8]) -> (Self, Option<usize>)
        requires can { can self }
        requires short { length message.now ≤ longest }
        requires room { room ≤ length reply.old }
        ensures can { can result.0 }
        ensures does { does self message.now (option_map (λ n. take n reply.new) result.1) result.0 }
        ensures within { IfSome result.1 (λ n. n ≤ length reply.new) }
        ensures len { length reply.new ≡ length reply.old };
}
