// The plan of a change of a staged sheet: in its stage, or else the move to a later one. Assumes every check passed.
ghost use Rattle.std.specs.Prelude.{◌≡◌, ◌-◌, ◌≤◌, ◌<◌};
ghost use Rattle.parity.specs.Meaning.{later_left};
ghost use Rattle.plan.specs.Meaning.{Planned, m_blocks};
ghost use Rattle.rules.specs.Search.{as_found};
ghost use Rattle.staged.specs.Meaning.{StagePlan, StagedSeen, later_plan};

use crate::layout::{StagedSheet, parity_length};
use parity::later_stage;
use plain::plan_blocks;
use plan::{Look, Plan};
use stage::plan_in;

impl StagedSheet<'_> {
    // The first later stage with room.
    fn later_left(&self, left: usize) -> Option<usize>
        requires { left ≤ self.now.of.settings.s - 1 }
        ensures { as_found result ≡ later_left self.now.of.settings.s self.now.of.settings.m self.now.of.settings.top left (m_blocks self.now.of.settings self.now.cells.now) }
    {
        later_stage(self.parity_blocks(left), left, self.of.settings.k)
    }

    // The plan on to a later stage: the move there, or no place.
    fn plan_later(&self, left: usize) -> Plan
        requires { left ≤ self.now.of.settings.s - 1 }
        ensures { result ≡ later_plan (later_left self.now.of.settings.s self.now.of.settings.m self.now.of.settings.top left (m_blocks self.now.of.settings self.now.cells.now)) }
    {
        let Some(to) = self.later_left(left) else {
            return Plan::Nowhere;
        };
        Plan::Move(to)
    }

    // The plan in the stage that the sheet is in, or no place there.
    fn plan_stage(&self, bit: usize, stage: usize, look: &Look) -> Plan
        requires { (bit < self.now.of.settings.k) × StagedSeen self.now.of.settings self.now.cells.now look.now stage }
        ensures { StagePlan self.now.of.settings self.now.cells.now bit (self.now.of.settings.s - 1 - stage) look.now result }
    {
        if stage == 0 {
            return plan_blocks(look, bit);
        }
        let settings = self.of.settings;
        let full = parity_length(settings.s - 1 - stage) * settings.top;
        plan_in(look, bit, self.of.width, full)
    }

    // The plan of a change: in the stage that the sheet is in, or else the move to a later one, or no place.
    pub fn plan(&self, bit: usize, stage: usize, look: &Look) -> Plan
        requires { (bit < self.now.of.settings.k) × StagedSeen self.now.of.settings self.now.cells.now look.now stage }
        ensures { Planned self.now.of.settings self.now.cells.now bit (self.now.of.settings.s - 1 - stage) look.now.bits result }
    {
        let plan = self.plan_stage(bit, stage, look);
        let Plan::Nowhere = plan else {
            return plan;
        };
        self.plan_later(self.of.settings.s - 1 - stage)
    }
}
