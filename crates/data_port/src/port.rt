//! Takes a stream of requests in any pieces.
ghost use Rattle.std.specs.Prelude.{[], ℕ, ◌++◌, ◌+◌, ◌<◌, ◌^◌, ◌≡◌, ◌≤◌, All, IfErr, IfOk, List, None, OnErr, OnOk};
ghost use Rattle.{std.specs.Prelude.{Some, false, length, take, true}, arrayvec.specs.ArrayVec.{array_vec_len}};
ghost use Rattle.data_port.specs.{Reading.{BreaksIn, HasTaken, TakesTo, bad_at_end, between}, Requests.{IsRequest}};

use crate::request::Request;
use crate::state::State;
use arrayvec::ArrayVec;
use std::marker::Model;

/// A place in a stream, from 0 on: the first whose byte no stream of requests has there.
#[derive(Clone, Copy)]
pub struct BadFrame {
    pub place: u64,
}

/// Takes a stream of requests that comes in pieces. It keeps the bytes of one unfinished request, and takes no memory.
///
/// A request is the byte 0x02, a count of one or more, as many codes of items, which rise, and 0x03. Contracts see a
/// port as a `Standing`, and say by `HasTaken` which bytes it has taken; for each port there are such bytes. After a
/// bad place every call answers that place again. The form is this project's own.
#[derive(Drop)]
pub struct Port {
    state: State,
}

impl Model for Port {
    ghost use Rattle.data_port.specs.{Reading.{HasSense, Standing}, State.{standing_of}};

    ghost Value = { Standing };

    ghost view = { λ p. standing_of p.state };

    ghost invariant = { λ p. HasSense (standing_of p.state) };
}

impl Port {
    /// A port that has taken nothing.
    pub fn new() -> Port
        ensures new { result ≡ between 0 }
        ensures taken { HasTaken result [] }
    {
        Port {
            state: State::new(),
        }
    }

    /// Takes bytes of a piece, appends the requests that end in them, and answers how many bytes it took: all of the
    /// piece, or all up to the last byte of the request that filled `out`. With a full `out` it takes none.
    ///
    /// `BadFrame` with the first place whose byte no stream of requests has there, if the requests before it leave room
    /// in `out`. `out` then has these requests, and the piece counts as taken. Each later call answers the same,
    /// whether `out` is full or not, and changes nothing.
    ///
    /// The bytes taken and those of the piece are together fewer than 2^64.
    pub fn feed(&mut self, piece: &[u8], out: &mut ArrayVec<Request, 64>) -> Result<usize, BadFrame>
        requires few { self.old.taken + length piece.now < 2 ^ 64 }
        ensures within { IfOk result (λ n. n ≤ length piece.now) }
        ensures some { IfOk result (λ n. array_vec_len out.old < 64 → 0 < length piece.now → 0 < n) }
        ensures taken { IfOk result (λ n. (b : List ℕ) → HasTaken self.old b
            → HasTaken self.new (b ++ take n piece.now)) }
        ensures requests { IfOk result (λ n. (b : List ℕ) → HasTaken self.old b
            → TakesTo b piece.now out.old.items out.new.items n) }
        ensures failed { OnErr result ((b : List ℕ) → HasTaken self.old b → HasTaken self.new (b ++ piece.now)) }
        ensures bad { IfErr result (λ e. self.old.failed ≡ false → (b : List ℕ) → HasTaken self.old b
            → BreaksIn b piece.now out.old.items out.new.items e.place) }
        ensures again { self.old.failed ≡ true → (result ≡ Err (record { place = self.old.taken }))
            × (self.new ≡ self.old) × (out.new ≡ out.old) }
        ensures stands { OnErr result (self.new.failed ≡ true) × IfErr result (λ e. e.place ≡ self.new.taken)
            × OnOk result (self.new.failed ≡ false) }
        ensures count { IfOk result (λ n. self.new.taken ≡ self.old.taken + n) }
        ensures at_most { self.new.taken ≤ self.old.taken + length piece.now }
        ensures range { All IsRequest out.old.items → All IsRequest out.new.items }
    {
        if self.state.failed {
            return Err(BadFrame {
                place: self.state.taken,
            });
        }
        for place in 0..piece.len() {
            if out.is_full() {
                return Ok(place);
            }
            self.state.take(piece[place], out)?;
        }
        Ok(piece.len())
    }

    /// Tells whether the stream may end here.
    ///
    /// `BadFrame` with the place that `feed` answered before, or with the number of bytes taken if a request is
    /// unfinished.
    pub fn finish(&self) -> Result<(), BadFrame>
        ensures ok { OnOk result ((b : List ℕ) → HasTaken self.now b → bad_at_end b ≡ None) }
        ensures bad { IfErr result (λ e. (b : List ℕ) → HasTaken self.now b → bad_at_end b ≡ Some e.place) }
    {
        if self.state.failed || !self.state.part.is_empty() {
            Err(BadFrame {
                place: self.state.taken,
            })
        } else {
            Ok(())
        }
    }
}
