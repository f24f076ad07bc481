// Standard input of any length, in blocks: one read call takes up to 64 KiB of what is there. What was read and not used up is kept, at most as many bytes as
// `alignment` leaves over, and the next block is put behind it.
#![tactic(auto)]

ghost use Rattle.std.specs.Prelude.{◌≡◌, ◌-◌, ◌≤◌, IfOk, length, take, drop};
ghost use Rattle.blocks.specs.Blocks.{Kept, Refilled};

use std::io;
use std::io::{ErrorKind, Read};

// The bytes from..to of the block were read and are not used up. `last`: the input has ended behind them.
#[derive(Clone, Copy)]
pub struct Window {
    pub from: usize,
    pub to: usize,
    pub last: bool,
}

// Room for what is kept, and a block.
pub const ROOM: usize = 65724;

const BLOCK_BYTES: usize = 65536;

// One read call, again where it was interrupted; 0 at the end of the input. A proved loop has to end: the calls are counted, up to a number that no run uses up.
fn read(stdin: &mut impl Read, part: &mut [u8]) -> io::Result<usize>
    ensures { IfOk result (λ n. n ≤ length part.old) }
{
    for _ in 0..u64::MAX {
        match stdin.read(part) {
            Ok(n) => return Ok(n),
            Err(e) => {
                if e.kind() != ErrorKind::Interrupted {
                    return Err(e);
                }
            }
        }
    }
    stdin.read(part)
}

// Moves what is kept to the block's front, and reads behind it.
pub fn refill(stdin: &mut impl Read, block: &mut [u8], window: Window) -> io::Result<Window>
    requires { Kept block.old window }
    ensures refilled { IfOk result (Refilled block.old window) }
    ensures block_after { take (window.to - window.from) block.new ≡ take (window.to - window.from) (drop window.from block.old) }
{
    let from = window.from;
    let kept = window.to - from;
    payload::to_front(block, from, kept);
    let end = kept + BLOCK_BYTES;
    let got = read(stdin, &mut block[kept..end])?;
    Ok(Window {
        from: 0,
        to: kept + got,
        last: got == 0,
    })
}
