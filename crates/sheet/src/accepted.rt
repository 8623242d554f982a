// Accepted settings by their kind, told once for each call, and what each kind does with a sheet. Assumes checks 1 to 5 passed.
ghost use Rattle.std.specs.Prelude.{◌≡◌, ◌+◌, ◌-◌, ◌≤◌, ◌<◌};
ghost use Rattle.rules.specs.Accept.{Genuine};
ghost use Rattle.rules.specs.AcceptLaws.{StagedFacts};
ghost use Rattle.rules.specs.Cells.{sum};
ghost use Rattle.rules.specs.Staged.{after};
ghost use Rattle.rules.specs.declared.Answer.TheVariants.{Done};
ghost use Rattle.plan.specs.Meaning.{Fits, Levelled, Planned, carried, value_in};
ghost use Rattle.sheet.specs.Meaning.{Seen, SheetLook, place_check, settings_of};

use block::raise_block;
use plain::kind0::PlainSettings;
use plain::plan_blocks;
use plan::{Look, Place, Plan};
use rules::{Kind, MOST_BITS, Settings};
use staged::layout::{StagedSettings, StagedSheet};

// Accepted settings of kind 0 or 1, with the sizes that their methods give.
#[derive(Clone, Copy)]
pub enum Accepted {
    Plain(PlainSettings),
    Staged(StagedSettings),
}

impl Accepted {
    // The settings of the kind that they name; a staged sheet has a width besides the number of blocks.
    pub fn of(settings: Settings, blocks: usize) -> Self
        requires { Genuine settings × (blocks ≡ settings.m) }
        ensures { settings_of result ≡ settings }
    {
        if settings.kind == Kind::Plain as usize {
            return Accepted::Plain(PlainSettings { settings, blocks });
        }
        Accepted::Staged(StagedSettings {
            settings,
            blocks,
            width: settings.width(),
        })
    }

    // The settings.
    fn settings(self) -> Settings
        ensures { result ≡ settings_of self }
    {
        match self {
            Accepted::Plain(of) => of.settings,
            Accepted::Staged(of) => of.settings,
        }
    }

    // Check 6: the sheet keeps the sheet rules of its stage.
    pub fn look(self, sheet: &[u8], look: &mut Look)
        requires { Levelled (settings_of self) sheet.now }
        ensures { SheetLook (settings_of self) sheet.now look.new }
    {
        match self {
            Accepted::Plain(of) => of.look(sheet, look),
            Accepted::Staged(of) => StagedSheet { of, cells: sheet }.look(look),
        }
    }

    // The plan of a change: where the encoding map of the sheet's stage raises levels, or that it finds no place.
    pub fn plan(self, sheet: &[u8], bit: usize, stage: usize, look: &Look) -> Plan
        requires { Levelled (settings_of self) sheet.now × (bit < (settings_of self).k) × Seen (settings_of self) sheet.now look.now stage }
        ensures { Planned (settings_of self) sheet.now bit ((settings_of self).s - 1 - stage) look.now.bits result }
    {
        match self {
            Accepted::Plain(of) => plan_blocks(look, bit),
            Accepted::Staged(of) => StagedSheet { of, cells: sheet }.plan(bit, stage, look),
        }
    }

    // A plan that names a place carried out; how many levels it raises. In a plain sheet each such plan is a step of a block.
    pub fn carry(
        self,
        sheet: &mut [u8],
        bit: usize,
        stage: usize,
        bits: &[Option<Place>; MOST_BITS],
        plan: Plan,
    ) -> usize
        requires sheet_fits { Levelled (settings_of self) sheet.old × (bit < (settings_of self).k) × (StagedFacts (settings_of self) → stage ≤ (settings_of self).s - 1) }
        requires plan_fits { Fits (settings_of self) sheet.old bit ((settings_of self).s - 1 - stage) plan × (place_check plan ≡ Done 0) }
        ensures sheet_after { sheet.new ≡ carried (settings_of self) bit ((settings_of self).s - 1 - stage) (after bit (value_in bits.now)) sheet.old plan }
        ensures levels_raised { result + sum sheet.old ≡ sum sheet.new }
    {
        if let Plan::Step(j, weight) = plan {
            let settings = self.settings();
            raise_block(sheet, settings.k, settings.top as u8, j, bit, weight);
            return 1;
        }
        let Accepted::Staged(of) = self else {
            unreachable!();
        };
        of.carry_out(sheet, bit, of.settings.s - 1 - stage, bits, plan)
    }
}
