//! What relocations compute.

ghost use Rattle.std.specs.Prelude.{◌≡◌, ◌^◌, ◌+◌, ◌<◌, ◌≤◌, ◌≤ℤ◌, pos, neg_ℤ, Some, None, if◌then◌else◌};
ghost use Rattle.purgatory_link.specs.Formulas.{form_of, wide, formula, fits, modulo};

/// The type of a relocation that puts nothing.
pub(crate) const R_X86_64_NONE: u32 = 0;

/// What a relocation computes, and the field that it goes to (x86-64 psABI, "Relocation Types").
#[derive(Clone, Copy, Drop)]
pub(crate) enum Form {
    /// R_X86_64_NONE: nothing.
    Empty,
    /// R_X86_64_64: S + A, modulo 2^64.
    Whole,
    /// R_X86_64_PC32 and R_X86_64_PLT32: S + A - P, a signed number of 32 bits.
    Relative,
    /// R_X86_64_32: S + A, an unsigned number of 32 bits.
    Unsigned,
    /// R_X86_64_32S: S + A, a signed number of 32 bits.
    Signed,
}

impl Form {
    /// The form of a type of relocations, none of an unknown one.
    pub(crate) fn of(kind: u32) -> Option<Form>
        ensures { result ≡ form_of kind }
    {
        match kind {
            R_X86_64_NONE => Some(Form::Empty),
            1 => Some(Form::Whole),
            2 | 4 => Some(Form::Relative),
            10 => Some(Form::Unsigned),
            11 => Some(Form::Signed),
            _ => None,
        }
    }

    /// The width of its field in bytes.
    pub(crate) fn wide(self) -> u64
        ensures { result ≡ wide self }
    {
        match self {
            Form::Empty => 0,
            Form::Whole => 8,
            Form::Relative | Form::Unsigned | Form::Signed => 4,
        }
    }

    /// Its value: `symbol` is S, `addend` A and `place` P.
    pub(crate) fn value(self, symbol: u64, addend: i64, place: u64) -> i128
        ensures { result ≡ formula self symbol addend place }
    {
        let sum = i128::from(symbol) + i128::from(addend);
        match self {
            Form::Relative => sum - i128::from(place),
            _ => sum,
        }
    }

    /// The number that the field holds, none where the value does not fit.
    pub(crate) fn field(self, value: i128) -> Option<u64>
        requires low { neg_ℤ (pos (2 ^ 65)) ≤ℤ value }
        requires high { value ≤ℤ pos (2 ^ 65) }
        ensures { result
            ≡ (if fits self value then Some (modulo (256 ^ wide self) value) else None) }
    {
        match self {
            Form::Empty => Some(0),
            Form::Whole => Some(value.rem_euclid(1 << 64) as u64),
            Form::Relative | Form::Signed => {
                let number = i32::try_from(value).ok()?;
                Some(u64::from(number.cast_unsigned()))
            }
            Form::Unsigned => Some(u64::from(u32::try_from(value).ok()?)),
        }
    }
}
