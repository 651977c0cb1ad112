//! Laws of this crate's definitions, as calls that do nothing and promise them.

ghost use Rattle.std.specs.Prelude.{◌≡◌, ◌↔◌, ◌^◌, ◌-◌, ℕ, List, Some, None, codes, true};
ghost use Rattle.std.specs.Cmp.{IsTotalOrder};
ghost use Rattle.std.specs.Cmp.Lexicographic.{slice_cmp};
ghost use Rattle.std.specs.Ordering.{nat_cmp};
ghost use Rattle.std.specs.declared.cmp.Ordering.TheVariants.{Less, Equal};
ghost use Rattle.std.specs.Int.{w128, to_be_bytes};
ghost use Rattle.aft_id.specs.TxnId.{IsUuid, id_cmp, id_lt, id_text, same_id, uuid_number};
ghost use Rattle.aft_id.specs.UuidText.{uuid_of_text};

use crate::txn_id::TxnId;
use std::cmp::Ordering;

/// The order of ids is total, is what `<` and `cmp` answer, and tells ids apart; UUIDs stand in it as their 128-bit numbers do.
pub fn id_order()
    ensures total { IsTotalOrder id_cmp }
    ensures answered { (a b : TxnId) → ⟦<TxnId as Ord>⟧.cmp a b ≡ id_cmp a b }
    ensures compared { (a b : TxnId) → ⟦<TxnId as PartialOrd>⟧.partial_cmp a b ≡ Some (id_cmp a b) }
    ensures tied { (a b : TxnId) → id_cmp a b ≡ Ordering.Equal → a ≡ b }
    ensures same { (a b : TxnId) → (same_id a b ≡ true) ↔ (a ≡ b) }
    ensures below { (a b : TxnId) → (id_lt a b ≡ true) ↔ (id_cmp a b ≡ Ordering.Less) }
    ensures numbered { (a b : List ℕ) → IsUuid a → IsUuid b → slice_cmp nat_cmp a b ≡ nat_cmp (uuid_number a) (uuid_number b) }
{}

/// What some texts name, and how an id is written.
pub fn known_texts()
    ensures nil { uuid_of_text (codes "@0") ≡ Some (to_be_bytes w128 0) }
    ensures number { uuid_of_text (codes "@258") ≡ Some (to_be_bytes w128 258) }
    ensures leading_zeros { uuid_of_text (codes "@0001") ≡ Some (to_be_bytes w128 1) }
    ensures greatest { uuid_of_text (codes "@340282366920938463463374607431768211455") ≡ Some (to_be_bytes w128 (2 ^ 128 - 1)) }
    ensures too_great { uuid_of_text (codes "@340282366920938463463374607431768211456") ≡ None }
    ensures forty_digits { uuid_of_text (codes "@0000000000000000000000000000000000000001") ≡ None }
    ensures signed { uuid_of_text (codes "@+1") ≡ None }
    ensures digits { uuid_of_text (codes "000000000000000000000000000001fF") ≡ Some (to_be_bytes w128 511) }
    ensures braced { uuid_of_text (codes "{00000000-0000-0000-0000-000000000102}") ≡ Some (to_be_bytes w128 258) }
    ensures prefixed { uuid_of_text (codes "urn:uuid:00000000-0000-0000-0000-000000000102") ≡ Some (to_be_bytes w128 258) }
    ensures upper_prefix { uuid_of_text (codes "URN:UUID:00000000-0000-0000-0000-000000000102") ≡ None }
    ensures id { id_text (record { time = 1000; uuid = to_be_bytes w128 258 }) ≡ codes "1000-00000000-0000-0000-0000-000000000102" }
{}
