//! What a mailbox may hold, take and give.

ghost use Rattle.std.specs.Prelude.{◌≡◌, [], ◌∷◌};
ghost use Rattle.aft_model.specs.declared.mail.MailAct.TheVariants.{Post, Take};
ghost use Rattle.aft_model.specs.Boxes.{box, refused_of, LegalBox};
ghost use Rattle.aft_histories.specs.Entries.{first, second};
ghost use Rattle.aft_histories.specs.Boxes.{posts, takes, both, one_of_two, full, emptied, used_again, has_both, BoxRefuses};

/// A box takes as many messages as it has room for, and a take empties it.
pub fn legal_boxes()
    ensures none { LegalBox 1 [] }
    ensures one_of_two { LegalBox 1 one_of_two }
    ensures one_held { box 1 one_of_two ≡ first.id ∷ [] }
    ensures one_refused { refused_of (Post both 1) ≡ second.id ∷ [] }
    ensures take_refuses_none { refused_of (Take both) ≡ [] }
    ensures full { LegalBox 1 full }
    ensures still_held { box 1 full ≡ first.id ∷ [] }
    ensures emptied { LegalBox 1 emptied }
    ensures none_held { box 1 emptied ≡ [] }
    ensures used_again { LegalBox 1 used_again }
    ensures again_held { box 1 used_again ≡ second.id ∷ [] }
    ensures has_both { LegalBox 2 has_both }
    ensures both_held { box 2 has_both ≡ both }
{}

/// What may not come at a box.
pub fn boxes_refused()
    ensures left_behind { BoxRefuses 2 has_both (takes (first.id ∷ [])) }
    ensures lost { BoxRefuses 2 has_both (takes (second.id ∷ [])) }
    ensures invented { BoxRefuses 1 emptied (takes (first.id ∷ [])) }
    ensures other { BoxRefuses 1 full (takes (second.id ∷ [])) }
    ensures one_more { BoxRefuses 1 full (takes both) }
    ensures other_order { BoxRefuses 2 has_both (takes (second.id ∷ first.id ∷ [])) }
    ensures fewer { BoxRefuses 2 [] (posts both 1) }
    ensures more { BoxRefuses 1 [] (posts both 2) }
    ensures more_than_posted { BoxRefuses 2 [] (posts (first.id ∷ []) 2) }
    ensures past_its_size { BoxRefuses 1 full (posts (second.id ∷ []) 1) }
{}
