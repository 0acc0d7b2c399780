ghost use Rattle.std.specs.Prelude.{◌≡◌, ◌≢◌, ◌^◌, ◌<◌, ◌≤◌, ◌↔◌, ℕ, List, [], ◌∷◌, codes, length, true, Result, Ok};
ghost use Rattle.std.specs.Prelude.{None, Some};
ghost use Rattle.std.specs.Char.{is_ascii_graphic};
ghost use Rattle.std.specs.List.{list_all};
ghost use Rattle.std.specs.Ordering.{nat_cmp};
ghost use Rattle.std.specs.declared.cmp.Ordering.TheVariants.{Less, Equal};
ghost use Rattle.std.specs.Cmp.{IsTotalOrder};
ghost use Rattle.std.specs.Cmp.Lexicographic.{slice_cmp};
ghost use Rattle.ndn_tlv.specs.Elements.{IsOctets};
ghost use Rattle.ndn_name.specs.Names.{Component, IsName, encoding, name_limit, name_of};
ghost use Rattle.ndn_name.specs.declared.name_fault.NameFault.{NameFault};
ghost use Rattle.ndn_name.specs.Uri.{uri};
ghost use Rattle.ndn_name.specs.UriText.{name_of_text, plain_name_of_text};
ghost use Rattle.ndn_name.specs.UriVerdict.{HasUri, IsUriVerdict};
ghost use Rattle.ndn_name.specs.CanonicalOrder.{IsPrefix, canonical_cmp};

use crate::name::NAME_LIMIT;

/// What is read as a name is a name, and the octets are its encoding.
pub fn read_names_are_encoded()
    ensures { (offset : ℕ) (octets : List ℕ) (name : List Component)
        → IsOctets octets → length octets < 2 ^ 64 → name_of offset octets ≡ Ok name
        → IsName name × (octets ≡ encoding name) }
{}

/// The encoding of a name is read back.
pub fn encoded_names_are_read()
    ensures { (offset : ℕ) (name : List Component) → IsName name
        → name_of offset (encoding name) ≡ Ok name }
{}

/// Names with the same octets are the same.
pub fn equal_octets_are_equal_names()
    ensures { (a b : List Component) → IsName a → IsName b
        → encoding a ≡ encoding b → a ≡ b }
{}

/// The canonical order is a total order.
pub fn canonical_order_is_total()
    ensures { IsTotalOrder canonical_cmp }
{}

/// The canonical order distinguishes all names that differ.
pub fn equals_are_in_no_order()
    ensures same { (a : List Component) → canonical_cmp a a ≡ Equal }
    ensures differ { (a b : List Component) → canonical_cmp a b ≡ Equal → a ≡ b }
{}

/// A name comes before those that go on from it.
pub fn prefixes_come_first()
    ensures { (a b : List Component) → IsPrefix a b → a ≢ b → canonical_cmp a b ≡ Less }
{}

/// The canonical order of names is the lexicographic order of their octets.
pub fn canonical_order_is_of_octets()
    ensures { (a b : List Component) → IsName a → IsName b
        → slice_cmp nat_cmp (encoding a) (encoding b) ≡ canonical_cmp a b }
{}

/// The text that is printed for a name within the limit is a text of that name.
pub fn printed_names_are_read()
    ensures { (name : List Component) → IsName name → length (encoding name) ≤ name_limit
        → IsUriVerdict (uri name) (Ok name) }
{}

/// What is computed of a text is what the grammar of URIs has for it.
pub fn texts_are_computed()
    ensures { (text : List ℕ) (name : List Component)
        → (name_of_text text ≡ Some name) ↔ HasUri name text }
{}

/// Some texts, as they are computed.
pub fn worked_texts()
    ensures root { name_of_text (codes "ndn:/") ≡ Some [] }
    ensures names { name_of_text (codes "/a/seg=0") ≡ Some ((8, codes "a") ∷ (50, 0 ∷ []) ∷ []) }
    ensures escapes { name_of_text (codes "/%61%2d%7E/9=...") ≡ Some ((8, codes "a-~") ∷ (9, []) ∷ []) }
    ensures digest { plain_name_of_text (codes "/a/1=x") ≡ None }
    ensures periods { name_of_text (codes "/..") ≡ None }
    ensures slash { name_of_text (codes "/a/") ≡ None }
    ensures zero { name_of_text (codes "/seg=01") ≡ None }
{}

/// The text that is printed for a name is read back by the reading that computes.
pub fn printed_names_are_computed()
    ensures { (name : List Component) → IsName name → name_of_text (uri name) ≡ Some name }
{}

/// A URI has visible characters of ASCII alone, without a space, and at least one.
pub fn uris_are_visible()
    ensures visible { (name : List Component) (text : List ℕ)
        → HasUri name text → list_all is_ascii_graphic text ≡ true }
    ensures some { (name : List Component) (text : List ℕ) → HasUri name text → 0 < length text }
{}

/// The limit of names is the format's.
pub fn limits_are_of_the_format()
    ensures { NAME_LIMIT ≡ name_limit }
{}

/// A text is one thing alone: one name, or one fault.
pub fn texts_have_one_answer()
    ensures { (text : List ℕ) (r s : Result (List Component) NameFault)
        → IsUriVerdict text r → IsUriVerdict text s → r ≡ s }
{}
