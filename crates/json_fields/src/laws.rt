// Laws of the definitions.
ghost use Rattle.std.specs.Prelude.{◌≡◌, ℕ, List, ◌↔◌, Ok};
ghost use Rattle.base64.specs.Engines.{standard};
ghost use Rattle.base64.specs.GeneralPurpose.{encode_of, IsBytes};
ghost use Rattle.json_fields.specs.Values.{bytes_of};

/// The law of encoded bytes: a text is read as these bytes exactly where it is their one encoding.
pub fn base64_law()
    ensures { (text : List ℕ) → (bytes : List ℕ) → IsBytes text → IsBytes bytes → (bytes_of text ≡ Ok bytes) ↔ (text ≡ encode_of standard bytes) }
{}
