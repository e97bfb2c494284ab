//! What holds of streams of requests, whatever a port does.
ghost use Rattle.std.specs.Prelude.{[], ℕ, ◌++◌, ◌↔◌, ◌≡◌, List, None, Option, Some, false, length, true};
ghost use Rattle.data_port.specs.Reading.{HasTaken, Standing, bad_at_end, first_bad, given_by, requests_after};
ghost use Rattle.data_port.specs.{Reading.{requests_in}, Streams.{EndsWhole, IsReadAs, bytes_of}};
ghost use Rattle.data_port.specs.declared.request.Request.{Request};

/// The streams of requests say what the first bad place of bytes and their requests are: the place is the first whose
/// byte no stream of requests has there, and the requests are those that are whole before it. Nothing else is said. At
/// the end of a stream nothing is bad exactly if the bytes are whole requests. A place that was bad before is the bad
/// one at the end too; if none was, an unfinished request is bad behind the last byte.
pub fn streams_are_read_by_their_frames()
    ensures so_far { (bytes : List ℕ) (bad : Option ℕ) (requests : List Request) → ((first_bad bytes ≡ bad)
        × (requests_in bytes ≡ requests)) ↔ IsReadAs bytes bad requests }
    ensures at_end { (bytes : List ℕ) (requests : List Request) → ((bad_at_end bytes ≡ None)
        × (requests_in bytes ≡ requests)) ↔ EndsWhole bytes requests }
    ensures bad { (bytes : List ℕ) (place : ℕ) → first_bad bytes ≡ Some place → bad_at_end bytes ≡ Some place }
    ensures unfinished { (bytes : List ℕ) (place : ℕ) → first_bad bytes ≡ None → bad_at_end bytes ≡ Some place
        → place ≡ length bytes }
{}

/// A first bad place stays the first one, whatever comes after it, and no requests come after it. More bytes add
/// requests to those before them.
pub fn more_bytes_add_requests()
    ensures bad { (b c : List ℕ) (place : ℕ) → first_bad b ≡ Some place → first_bad (b ++ c) ≡ Some place }
    ensures ended { (b c : List ℕ) (place : ℕ) → first_bad b ≡ Some place → requests_in (b ++ c) ≡ requests_in b }
    ensures requests { (b c : List ℕ) → requests_in (b ++ c) ≡ requests_in b ++ requests_after b c }
{}

/// What a stream gives doesn't depend on where its bytes were cut: any pieces, taken in turn, give the requests of all
/// their bytes.
pub fn pieces_give_the_requests_of_all_bytes()
    ensures requests { (pieces : List (List ℕ)) → given_by [] pieces ≡ requests_in (bytes_of pieces) }
    ensures cuts { (one other : List (List ℕ)) → bytes_of one ≡ bytes_of other → given_by [] one ≡ given_by [] other }
{}

/// A port that goes on has taken no bad place. One that has failed did so at the first bad place of what it has taken,
/// whatever it is said to have taken after it. Ports that have taken the same bytes, in whatever pieces, are the same.
pub fn a_port_is_known_by_its_bytes()
    ensures going { (port : Standing) (b : List ℕ) → HasTaken port b → port.failed ≡ false → first_bad b ≡ None }
    ensures count { (port : Standing) (b : List ℕ) → HasTaken port b → port.failed ≡ false → port.taken ≡ length b }
    ensures failed { (port : Standing) (b : List ℕ) → HasTaken port b → port.failed ≡ true
        → first_bad b ≡ Some port.taken }
    ensures stays { (port : Standing) (b c : List ℕ) → HasTaken port b → port.failed ≡ true → HasTaken port (b ++ c) }
    ensures same { (port other : Standing) (b : List ℕ) → HasTaken port b → HasTaken other b → port ≡ other }
{}
