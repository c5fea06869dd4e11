ghost use Rattle.std.specs.Prelude.{◌≡◌, ℕ, List, ◌++◌, ◌↔◌, length, Ok};
ghost use Rattle.byteorder.specs.Endian.{big_number};
ghost use Rattle.vx_xdr.specs.Spelling.{Kind, Value, AreBytes, Spells, Fits, spelling};
ghost use Rattle.vx_xdr.specs.Reading.{reading};

/// A list spells a value exactly where the value has a spelling and the list is what a writer writes for it.
pub fn spelling_spells()
    ensures { (kind : Kind) (value : Value kind) (bytes : List ℕ) → Spells kind value bytes ↔ (Fits kind value × (bytes ≡ spelling kind value)) }
{}

/// Each value has one spelling.
pub fn one_spelling()
    ensures { (kind : Kind) (value : Value kind) (a b : List ℕ) → Spells kind value a → Spells kind value b → a ≡ b }
{}

/// No spelling of a kind begins another of that kind, and no two values share one: where two of them stand in front
/// of one list, they are the same, and so are the values and what follows.
pub fn no_prefix()
    ensures { (kind : Kind) (v w : Value kind) (a b x y : List ℕ) → Spells kind v a → Spells kind w b → a ++ x ≡ b ++ y → (a ≡ b) × (v ≡ w) × (x ≡ y) }
{}

/// No two lists of four bytes have the same number.
pub fn same_word()
    ensures { (a b : List ℕ) → length a ≡ 4 → length b ≡ 4 → AreBytes a → AreBytes b → big_number 4 a ≡ big_number 4 b → a ≡ b }
{}

/// What spells a value is read as that value, whatever follows it.
pub fn read_again()
    ensures { (kind : Kind) (value : Value kind) (bytes rest : List ℕ) → Spells kind value bytes → reading kind (bytes ++ rest) ≡ Ok (value, rest) }
{}

/// What is read spells the value that it is read as.
pub fn read_is_spelled()
    ensures { (kind : Kind) (value : Value kind) (bytes rest : List ℕ) → AreBytes bytes → reading kind bytes ≡ Ok (value, rest) → (front : List ℕ) × Spells kind value front × (bytes ≡ front ++ rest) }
{}
