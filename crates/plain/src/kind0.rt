// Plain settings, and check 6 of a plain sheet. Assumes checks 2 to 5 passed.
ghost use Rattle.std.specs.Prelude.{◌≡◌};
ghost use Rattle.rules.specs.AcceptLaws.{PlainFacts};
ghost use Rattle.plan.specs.Meaning.{Levelled};
ghost use Rattle.plain.specs.Meaning.{PlainLook};

use crate::scan_blocks;
use cells::all_zero;
use cells::blocks::Blocks;
use plan::Look;
use rules::{Answer, Settings};

// Accepted settings of kind 0, with the number of blocks, which their method gave once for the call.
#[derive(Clone, Copy)]
pub struct PlainSettings {
    pub settings: Settings,
    pub blocks: usize,
    pub ghost plain: { PlainFacts settings },
    pub ghost has_blocks: { blocks ≡ settings.m },
}

impl PlainSettings {
    // Check 6: the spare cells are 0, and the blocks keep the rules.
    pub fn look(self, sheet: &[u8], look: &mut Look)
        requires { Levelled self.settings sheet.now }
        ensures { PlainLook self.settings sheet.now look.new }
    {
        let settings = self.settings;
        let a = self.blocks * settings.k;
        if !all_zero(&sheet[a..]) {
            return look.clear(Answer::BadSheet);
        }
        let blocks = Blocks {
            cells: sheet,
            len: settings.k,
            count: self.blocks,
            top: settings.top as u8,
        };
        scan_blocks(blocks, look);
    }
}
