// What a kind derives once from an opening record, and ciphers the bodies of a call with.
ghost use Rattle.std.specs.Prelude.{◌≡◌, ℕ, List};
ghost use Rattle.auth.specs.declared.types.OpeningRecord.{OpeningRecord as Opening};
ghost use Rattle.cipher.specs.Kind.{Lawful};
ghost use Rattle.kinds.specs.Kinds.{kind_of, unless_short};

use auth::types::OpeningRecord;

pub trait CallKey: Copy {
    // the fewest bytes of a body
    ghost LEAST: { ℕ };

    const LEAST: usize;

    // the image of a body under an opening record and a HOOK
    ghost image: { Opening → ℕ → List ℕ → List ℕ };

    // the image of a body under a key and a HOOK
    ghost effect: { Self → ℕ → List ℕ → List ℕ };

    // all that a key holds of an opening record
    ghost material: { Self → List ℕ };

    // what a key of this record holds
    ghost material_of: { Opening → List ℕ };

    // What the opening record of a call gives.
    fn derive(opening: OpeningRecord) -> Self
        ensures { material result ≡ material_of opening };

    // Enciphers or deciphers a body in place; the two are the same. One under the least length stays as it was.
    fn apply(&self, hook: u32, body: &mut [u8])
        ensures { body.new ≡ unless_short LEAST (effect self.now hook) body.old };

    // a key of a record ciphers as the kind does under that record
    ghost ciphers_as_kind: { (k : Self) (o : Opening) → material k ≡ material_of o → effect k ≡ image o };

    // the map keeps the length of a body and undoes itself
    ghost lawful: { Lawful (kind_of LEAST image) };
}
