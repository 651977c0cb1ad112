//! Laws of the texts of replies, as calls that do nothing and promise them.

ghost use Rattle.std.specs.Prelude.{◌≡◌};
ghost use Rattle.aft_model.specs.ReplyText.{reply_text};
ghost use Rattle.aft_model.specs.declared.reply.Reply.{Reply};
ghost use Rattle.aft_reply.specs.Limits.{IsReply};

/// No two replies have one text.
pub fn texts_differ()
    ensures { (a b : Reply) → IsReply a → IsReply b → reply_text a ≡ reply_text b → a ≡ b }
{}
