//! The name of a run, and a slot for one in four bytes.

ghost use Rattle.std.specs.Prelude.{◌≡◌, ◌+◌, ◌<◌, ◌^◌, None, Some};
ghost use Rattle.std.specs.Option.{is_none};

use std::marker::Model;

/// The name of a run: a number of 32 bits, but not the greatest one.
#[derive(Clone, Copy)]
pub(crate) struct RunName {
    number: u32,
}

const _: () = prove!(size_of::<RunName>() == 4);

impl Model for RunName {
    ghost use Rattle.std.specs.Prelude.{ℕ, ◌+◌, ◌<◌, ◌^◌};

    ghost Value = { ℕ };

    ghost view = { λ name. name.number };

    ghost inverse = { λ number. record { number = number } };

    ghost invariant = { λ name. name.number + 1 < 2 ^ 32 };
}

impl RunName {
    pub(crate) fn new(number: u32) -> RunName
        requires { number + 1 < 2 ^ 32 }
        ensures { result ≡ number }
    {
        RunName { number }
    }

    pub(crate) fn number(self) -> u32
        ensures { result ≡ self }
    {
        self.number
    }
}

/// A slot for the name of a run: it holds one more than the name, or zero. So it takes no more room than the name.
#[derive(Clone, Copy)]
pub(crate) struct Slot {
    code: u32,
}

const _: () = prove!(size_of::<Slot>() == 4);

impl Model for Slot {
    ghost use Rattle.std.proofs.Common.{ap};
    ghost use Rattle.std.specs.Prelude.{ℕ, Option};
    ghost use Rattle.order_timeline.specs.RunNames.{held_by, code_for, code_for-held_by};

    ghost Value = { Option ℕ };

    ghost view = { λ slot. held_by slot.code };

    ghost inverse = { λ name. record { code = code_for name } };

    ghost inverse_ok = { λ slot h. ap (λ code. record { code = code }) (code_for-held_by slot.code) };
}

impl Slot {
    pub(crate) fn empty() -> Slot
        ensures { result ≡ None }
    {
        Slot { code: 0 }
    }

    pub(crate) fn of(name: RunName) -> Slot
        ensures { result ≡ Some name }
    {
        Slot {
            code: name.number + 1,
        }
    }

    /// The name, where there is one.
    pub(crate) fn name(self) -> Option<RunName>
        ensures { result ≡ self }
    {
        match self.code.checked_sub(1) {
            Some(name) => Some(RunName::new(name)),
            None => None,
        }
    }

    pub(crate) fn is_empty(self) -> bool
        ensures { result ≡ is_none self }
    {
        self.code == 0
    }
}
