//! A buffer that allocates its room once, so that adding to it does not allocate.

ghost use Rattle.std.specs.Prelude.{◌≡◌, ◌+◌, ◌++◌, ◌≤◌, [], length, IfOk};
ghost use Rattle.fixed_machine.specs.inside.Buffers.{Buffered};
ghost use Rattle.fixed_machine.specs.Answers.{answer_text};
ghost use Rattle.fixed_machine.specs.inside.Stepping.{whole_answer};

use crate::answer::{SPARE, SignedAnswer, push_answer};
use std::alloc::{AllocError, Global};
use std::marker::Model;

/// Bytes, with room for a fixed number of them and spare room after it, and scratch space for the number of an answer.
#[derive(Drop)]
pub(crate) struct Buffer {
    held: Vec<u8>,
    most: usize,
    text: [u8; 56],
}

impl Model for Buffer {
    ghost use Rattle.std.specs.Prelude.{◌+◌, ◌≤◌};
    ghost use Rattle.std.specs.Vec.{vec_capacity};
    ghost use Rattle.fixed_machine.specs.inside.Buffers.{Buffered};

    ghost Value = { Buffered };

    ghost view = { λ b. record { bytes = b.held.items; room = b.most } };

    ghost invariant = { λ b. b.most + 32 ≤ vec_capacity b.held };
}

impl Buffer {
    /// Returns an empty buffer with room for `room` bytes. Fails if memory runs out.
    pub(crate) fn with_room(alloc: Global, room: usize) -> Result<Self, AllocError>
        ensures { IfOk result (λ b. b ≡ record { bytes = []; room = room }) }
    {
        match room.checked_add(SPARE) {
            Some(total) => Ok(Buffer {
                held: Vec::with_capacity(alloc, total)?,
                most: room,
                text: [0; 56],
            }),
            None => Err(AllocError),
        }
    }

    /// Returns for how many bytes there is room.
    pub(crate) fn room(&self) -> usize
        ensures { result ≡ self.now.room }
    {
        self.most
    }

    /// Returns the bytes.
    pub(crate) fn bytes(&self) -> &[u8]
        ensures { result.now ≡ self.now.bytes }
    {
        self.held.as_slice()
    }

    /// Turns the buffer into its bytes.
    pub(crate) fn into_bytes(self) -> Vec<u8>
        ensures { result.items ≡ self.bytes }
    {
        self.held
    }

    /// Removes all bytes. The room stays.
    pub(crate) fn reset(&mut self)
        ensures { self.new ≡ record { bytes = []; room = self.old.room } }
    {
        self.held.clear();
    }

    /// Adds the text of an answer. Precondition: there is room for it.
    #[inline(always)]
    pub(crate) fn push_text(&mut self, answer: SignedAnswer)
        requires { length self.old.bytes + length (answer_text (whole_answer answer)) ≤ self.old.room }
        ensures { self.new ≡ record {
          bytes = self.old.bytes ++ answer_text (whole_answer answer);
          room = self.old.room;
        } }
    {
        push_answer(&mut self.held, &mut self.text, answer);
    }
}
