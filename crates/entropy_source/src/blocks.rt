// Conditioned blocks, each of samples of its own, and bytes filled with them.
ghost use Rattle.std.specs.Prelude.{◌≡◌, ◌≤◌, ◌<◌, ◌+◌, ◌*◌, ◌^◌, [], ◌∷◌, length, replicate, IsSome, OnOk, OnErr, IfOk};
ghost use Rattle.conditioner.specs.Conditioned.{block_len};
ghost use Rattle.entropy_source.specs.Source.{blocks_for, need_of, need_of_block};
ghost use Rattle.entropy_source.specs.Views.{source_state, HasDrawn};
ghost use Rattle.entropy_source.specs.Scaffolding.{Conditions, MakesBlock, Fills, EndsDraw};

use crate::answers::{Range, SourceRefusal};
use crate::intake::Intake;
use conditioner::{Block, block_len, need};
use rbg_bytes::{Fixed, put_fitting};
use sample_source::Samples;

impl<S: Samples> Intake<S> {
    // Reads the samples of one block and conditions them.
    fn condition(&mut self, buffer: &mut [u8]) -> Result<Fixed<32>, SourceRefusal>
        requires buffer { length buffer.old ≡ 4096 }
        requires room { self.old.taken + need_of_block self.old.row ≤ 2 ^ 60 }
        requires tested { IsSome self.old.tail }
        ensures comes { Conditions S.told S.faults S.reads self.old.row result self.old self.new }
        ensures tested { OnOk result (IsSome self.new.tail) }
        ensures taken { OnOk result (self.new.taken ≡ self.old.taken + need_of_block self.old.row) }
        ensures fewer { OnOk result (self.new.blocks < self.new.taken) }
        ensures row { self.new.row ≡ self.old.row }
    {
        let total = need(self.row.cond, self.row.num, self.row.den);
        let mut block = Block::start(self.row.cond, total);
        let mut lacks = total;
        while lacks > 0 {
            match self.read(lacks, buffer) {
                Ok(count) => {
                    block.push(&buffer[..count]);
                    lacks -= count as u32;
                }
                Err(why) => return Err(why),
            }
        }
        Ok(block.finish())
    }

    // Counts a block that was made.
    fn count_block(&mut self)
        requires { self.old.blocks < self.old.taken }
        ensures { self.new ≡ record self.old { blocks = self.old.blocks + 1 } }
    {
        self.blocks += 1;
    }

    // The next conditioned block.
    fn block(&mut self, buffer: &mut [u8]) -> Result<Fixed<32>, SourceRefusal>
        requires buffer { length buffer.old ≡ 4096 }
        requires room { self.old.taken + need_of_block self.old.row ≤ 2 ^ 60 }
        requires tested { IsSome self.old.tail }
        ensures makes { MakesBlock S.told S.faults S.reads self.old.row result self.old self.new }
        ensures len { IfOk result (λ block. length block ≡ block_len self.old.row.cond) }
        ensures tested { OnOk result (IsSome self.new.tail) }
        ensures taken { OnOk result (self.new.taken ≡ self.old.taken + need_of_block self.old.row) }
        ensures row { self.new.row ≡ self.old.row }
    {
        match self.condition(buffer) {
            Ok(block) => {
                self.count_block();
                Ok(block)
            }
            Err(why) => Err(why),
        }
    }

    // Fills bytes with the blocks that follow, one after another; the rest of the last block is let go.
    fn fill(&mut self, out: &mut [u8], buffer: &mut [u8]) -> Result<(), SourceRefusal>
        requires buffer { length buffer.old ≡ 4096 }
        requires few { length out.old ≤ 4096 }
        requires room { self.old.taken + blocks_for self.old.row (length out.old) * need_of_block self.old.row ≤ 2 ^ 60 }
        requires tested { IsSome self.old.tail }
        ensures fills { Fills S.told S.faults S.reads self.old.row (blocks_for self.old.row (length out.old)) out.new result self.old self.new }
        ensures row { self.new.row ≡ self.old.row }
    {
        let len = block_len(self.row.cond);
        let blocks = out.len().div_ceil(len);
        for i in 0..blocks {
            match self.block(buffer) {
                Ok(block) => {
                    put_fitting(out, i * len, block.as_slice());
                }
                Err(why) => return Err(why),
            }
        }
        Ok(())
    }

    // A draw from a source that is not in error. Where it is refused, the bytes are zeros, so that no block stays in them.
    pub fn draw(&mut self, out: &mut [u8], buffer: &mut [u8]) -> Result<Range, SourceRefusal>
        requires buffer { length buffer.old ≡ 4096 }
        requires few { length out.old ≤ 4096 }
        requires room { self.old.taken + need_of self.old.row (length out.old ∷ []) ≤ 2 ^ 60 }
        requires tested { IsSome self.old.tail }
        ensures acts { HasDrawn S.told S.faults S.reads (length out.old) out.new result self.old self.new }
        ensures wiped { OnErr result (out.new ≡ replicate (length out.old) 0) }
        ensures ends { EndsDraw self.old.row (length out.old) result (source_state S.told S.faults self.old) (source_state S.told S.faults self.new) }
        ensures row { self.new.row ≡ self.old.row }
    {
        let from = self.taken();
        match self.fill(out, buffer) {
            Ok(()) => Ok(Range {
                from,
                to: self.taken(),
            }),
            Err(why) => {
                out.fill(0);
                Err(why)
            }
        }
    }
}
