//! Lending the value. This stands in a file of its own, since its clause names the row of `Held`.

ghost use Rattle.std.specs.Prelude.{◌≡◌};
ghost use Rattle.std.specs.Borrow.{sem};
ghost use Rattle.update_lock.specs.Lending.{LendsValue};

use crate::seat::Held;

impl<J> Held<J> {
    /// Lends the value that was taken. Whatever becomes of it while it is lent is what `give` gives
    /// back.
    pub fn value(&mut self) -> &mut J
        ensures* lends { sem 𝓛 (LendsValue J.row self.entry result) }
        ensures value { result.now ≡ self.old.value }
    {
        &mut self.value
    }
}
