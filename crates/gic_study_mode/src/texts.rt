//! The texts of monitors.
ghost use Rattle.std.specs.Prelude.{◌≡◌, ◌<◌, [], length, map, IfOk, IfErr};
ghost use Rattle.gic_monitor.specs.OnBoard.{monitors_of};

use gic_base::OutOfMemory;
use gic_monitor::{Board, Monitor};
use std::alloc::Global;

/// The text of each monitor, in order. Where there is no monitor it takes no memory.
pub(crate) fn texts_of(alloc: Global, board: &Board) -> Result<Vec<Vec<u8>>, OutOfMemory>
    ensures texts { IfOk result (λ texts. map (λ text. text.items) texts.items ≡
        map (λ m. (⟦<dyn Monitor as Monitor>⟧ m.vtable).outlook m.value []) (monitors_of board.now)) }
    ensures some { IfErr result (λ _. 0 < length (monitors_of board.now)) }
{
    let mut texts = Vec::new(alloc);
    for place in 0..board.len() {
        let mut text = Vec::new(alloc);
        board.print(place, &mut text)?;
        texts.push(text)?;
    }
    Ok(texts)
}
