//! What later commands go by: the minute and the default unit.
ghost use Rattle.std.specs.Prelude.{◌≡◌, Bool, true, IfErr};
ghost use Rattle.newt_host.specs.Outside.{Outside};
ghost use Rattle.newt_spec_world.specs.Reply.{Reply};
ghost use Rattle.newt_spec_world.specs.declared.command.Command.{Command};
ghost use Rattle.newt_spec_world.specs.Answer.{answer};
ghost use Rattle.newt_store_change.specs.Faults.{IsRefusal};
ghost use Rattle.newt_engine_units.specs.Answers.{Answers};
ghost use Rattle.newt_engine_units.specs.Stands.{Eight, Stands, world_of, default_of};

use crate::units::Units;
use newt_engine_card::Card;
use newt_host::Unit;
use newt_store_change::StoreFault;

impl<C: Card> Units<C> {
    /// Sets the minute that later changes use.
    pub fn set_minute(&mut self, minute: u32)
        ensures stands { (told : Bool) (outside : Outside)
            → Stands C.place C.stands told self.old outside
            → Stands C.place C.stands told self.new outside }
        ensures answered { (outside : Outside)
            → answer (world_of C.reads self.old outside) (Command.Time minute)
            ≡ (world_of C.reads self.new outside, Reply.done) }
    {
        self.minute = minute;
    }

    /// The minute that changes use.
    pub fn minute(&self) -> u32
        ensures { result ≡ self.now.minute }
    {
        self.minute
    }

    /// The default unit, if there is one.
    pub fn default_unit(&self) -> Option<Unit>
        ensures { result ≡ default_of self.now }
    {
        self.default
    }

    /// Makes the store of a unit the default one.
    pub fn set_default(&mut self, unit: Unit) -> Result<(), StoreFault>
        ensures stands { (told : Bool) (outside : Outside)
            → Stands C.place C.stands told self.old outside
            → Stands C.place C.stands told self.new outside }
        ensures answered { (outside : Outside) → Eight outside
            → Stands C.place C.stands true self.old outside →
            Answers (world_of C.reads self.old outside) (world_of C.reads self.new outside)
            (Command.Default unit) (λ _. Reply.done) result }
        ensures only { IfErr result (λ fault. IsRefusal fault) }
        ensures kept { IfErr result (λ fault. self.new ≡ self.old) }
    {
        self.find_unit(unit)?;
        self.default = Some(unit);
        Ok(())
    }
}
