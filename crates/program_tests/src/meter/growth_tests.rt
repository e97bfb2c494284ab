//! A run over a board in memory, for tests/crash/growths, which refuses one growth of memory after the other in it.
use crate::meter::failure_tests::SHOWN;
use crate::meter::run_tests::{HIRING, RUN};
use crate::meter::store_tests::{SECOND_LAYOUT, image_of};
use crate::meter::tests::{A, call};
use memory_devices::MemoryBoard;
use std::test::Fail;

/// A store as sealing leaves it, made without memory: number 1, totals of zero, no held trip.
fn sealed_image() -> [u8; 2048] {
    let mut image = [0; 2048];
    image[1024..].copy_from_slice(&image_of(SECOND_LAYOUT)[1024..]);
    for (place, byte) in [(0, 0xA5), (8, 1), (511, 2)] {
        image[place] = byte;
    }
    image
}

/// How a run of a hiring over an image ended.
fn told(image: &[u8; 2048], board: &MemoryBoard, status: u8) -> Result<(), Fail> {
    if status == 0 && board.printed() == SHOWN.as_bytes() {
        return Ok(());
    }
    if status == 12 && board.printed() == b"NO MEMORY\n".as_slice() && *board.image() == *image {
        return Err(Fail::new("memory ran out before the run"));
    }
    if status == 8 && board.refused() > 0 && SHOWN.as_bytes().starts_with(board.printed()) {
        return Err(Fail::new("the board had no memory"));
    }
    Err(Fail::new("the run ended otherwise"))
}

/// The hiring is carried out whole; or memory runs out before it begins, with 12 and nothing written; or the board has
/// no memory to grow, with 8. Only the first passes, and tests/crash/growths reads which of the others it is.
#[test]
fn a_hiring(rt: HostRuntime) -> Result<(), Fail> {
    let image = sealed_image();
    let mut board = MemoryBoard::new(rt.alloc(), &image, &[])?;
    let status = call(rt.alloc(), RUN, &[A, HIRING], &[], &mut board)?;
    told(&image, &board, status)
}
