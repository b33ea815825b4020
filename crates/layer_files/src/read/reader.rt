// The bytes of a file, how far they are read, and the fields that stand there.
ghost use Rattle.std.specs.Prelude.{◌≡◌, ◌+◌, ◌≤◌, ℕ, length, drop, Ok, Err, Some, None, MatchOption, MatchResult};
ghost use Rattle.layer_fields.specs.declared.fault.Cause.TheVariants.{Field as Misplaced};
ghost use Rattle.layer_fields.specs.Faults.{fault_at};
ghost use Rattle.layer_fields.specs.Fields.{front_field, field_of, span};
ghost use Rattle.layer_files.specs.Reads.{taken, whiteout_span};
ghost use Rattle.layer_files.specs.Readers.{version_at};

use layer_fields::fault::{Cause, LayerFault};
use layer_fields::field::{Field, front_field};

mod units;

// The field at that position is missing, or is not one that may stand there.
fn misplaced(at: usize) -> LayerFault
    ensures { result ≡ fault_at at Misplaced }
{
    LayerFault {
        at,
        cause: Cause::Field,
    }
}

#[derive(Drop)]
pub(super) struct Reader<'a> {
    bytes: &'a [u8],
    at: usize,
    ghost within: { at ≤ length bytes.now },
}

impl<'a> Reader<'a> {
    pub(super) fn new(bytes: &'a [u8]) -> Reader<'a>
        ensures bytes { result.bytes.now ≡ bytes.now }
        ensures at { result.at ≡ 0 }
    {
        Reader { bytes, at: 0 }
    }

    // The field that stands next, if it is there whole.
    fn peek(&self) -> Option<Field<'a>>
        ensures { MatchOption result (front_field (drop self.now.at self.now.bytes.now) ≡ None) (λ f. front_field (drop self.now.at self.now.bytes.now) ≡ Some (field_of f)) }
    {
        front_field(&self.bytes[self.at..])
    }

    // Goes past the field that stands next.
    fn skip(&mut self, field: Field)
        requires { front_field (drop self.old.at self.old.bytes.now) ≡ Some (field_of field) }
        ensures bytes { self.new.bytes.now ≡ self.old.bytes.now }
        ensures at { self.new.at ≡ self.old.at + span (field_of field.entry) }
    {
        self.at += field.span();
    }

    // The next field.
    fn field(&mut self) -> Result<Field<'a>, LayerFault>
        ensures bytes { self.new.bytes.now ≡ self.old.bytes.now }
        ensures field { MatchResult result (λ f. (front_field (drop self.old.at self.old.bytes.now) ≡ Some (field_of f)) × (self.new.at ≡ self.old.at + span (field_of f))) (λ e. (front_field (drop self.old.at self.old.bytes.now) ≡ None) × (e ≡ fault_at self.old.at Misplaced)) }
    {
        let field = self.peek().ok_or(misplaced(self.at))?;
        self.skip(field);
        Ok(field)
    }

    // Goes past the version, which has to be 1.
    pub(super) fn version(&mut self) -> Result<(), LayerFault>
        ensures bytes { self.new.bytes.now ≡ self.old.bytes.now }
        ensures version { MatchResult result (λ _. (version_at self.old.bytes.now self.old.at ≡ Ok tt) × (self.new.at ≡ self.old.at + 4)) (λ e. version_at self.old.bytes.now self.old.at ≡ Err e) }
    {
        let at = self.at;
        let Some(version) = self.field()?.version() else {
            return Err(misplaced(at));
        };
        if version != 1 {
            return Err(LayerFault {
                at,
                cause: Cause::Version,
            });
        }
        Ok(())
    }

    // Goes past a whiteout.
    fn whiteout(&mut self) -> Result<(), LayerFault>
        ensures bytes { self.new.bytes.now ≡ self.old.bytes.now }
        ensures whiteout { MatchResult result (λ _. (n : ℕ) × (taken whiteout_span self.old.bytes.now self.old.at ≡ Ok n) × (self.new.at ≡ self.old.at + n)) (λ e. taken whiteout_span self.old.bytes.now self.old.at ≡ Err e) }
    {
        let at = self.at;
        if !self.field()?.is_whiteout() {
            return Err(misplaced(at));
        }
        Ok(())
    }
}
