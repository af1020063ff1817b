//! The tick limit: quiet blocks up to the first that is refused with 3.
use crate::drive_next;
use pass::pass::Pass;
use std::io;
use tick_block::layout::BLOCK_BYTES;

// One block more than a pass can drive.
const BLOCKS: u32 = 16_777_217;

// Makes the quiet block of this number: word 1, and the check, word 127.
fn put_number(block: &mut [u8; BLOCK_BYTES], number: u32) {
    block[4..8].copy_from_slice(&number.to_le_bytes());
    block[508..512].copy_from_slice(&number.wrapping_add(6).to_le_bytes());
}

// The blocks have version 1 and k = 4. Only a refused one is printed.
pub(crate) fn drive_to_limit(rt: &HostRuntime) -> io::Result<()> {
    let mut block = [0; BLOCK_BYTES];
    block[0] = 1;
    block[420] = 4;
    let mut pass = Pass::Empty;
    for number in 0..BLOCKS {
        put_number(&mut block, number);
        drive_next(rt, &mut pass, &block, false)?;
        if pass.next_number() != number + 1 {
            break;
        }
    }
    Ok(())
}
