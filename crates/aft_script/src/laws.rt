//! What some lines, scripts and orders are read as, as calls that do nothing and promise it.

ghost use Rattle.std.specs.Prelude.{◌≡◌, ◌++◌, ◌∷◌, [], Err, None, Ok, Some, codes, false, true};
ghost use Rattle.std.specs.Int.{to_be_bytes, w128};
ghost use Rattle.aft_conf.specs.Settings.{default_settings};
ghost use Rattle.aft_script.specs.Forms.{line_of};
ghost use Rattle.aft_script.specs.Generator.{generated_lines};
ghost use Rattle.aft_script.specs.Orders.{order_of};
ghost use Rattle.aft_script.specs.Scripts.{script_of};

use crate::fault::{LineFault, ScriptFault};
use aft_model::Command;

/// What some lines of a script for two nodes say.
pub fn known_lines()
    ensures empty { line_of 2 [] ≡ Ok None }
    ensures spaces { line_of 2 (codes "   ") ≡ Ok None }
    ensures comment { line_of 2 (codes "# 65 fly") ≡ Ok None }
    ensures got { line_of 2 (codes "  64  get   x ") ≡ Ok (Some (record { client = 64; order = Command.Get (codes "x") })) }
    ensures begun { line_of 2 (codes "1 begin @258 on 2") ≡ Ok (Some (record { client = 1; order = Command.Begin (to_be_bytes w128 258) 2 })) }
    ensures empty_value { line_of 2 (codes "1 put x #") ≡ Ok (Some (record { client = 1; order = Command.Put (codes "x") [] })) }
    ensures digits { line_of 2 (codes "1 put x #0aF0") ≡ Ok (Some (record { client = 1; order = Command.Put (codes "x") (10 ∷ 240 ∷ []) })) }
    ensures forgotten { line_of 2 (codes "9 forget 00000000000000000000000000000102 on 1") ≡ Ok (Some (record { client = 9; order = Command.Forget (to_be_bytes w128 258) 1 })) }
    ensures orphans { line_of 2 (codes "1 orphans x") ≡ Ok (Some (record { client = 1; order = Command.Orphans (codes "x") })) }
    ensures backup { line_of 2 (codes "1 backup") ≡ Ok (Some (record { client = 1; order = Command.Backup })) }
{}

/// The first faults of some lines.
pub fn faulty_lines()
    ensures low_byte { line_of 2 (35 ∷ 31 ∷ []) ≡ Err LineFault.BadByte }
    ensures high_byte { line_of 2 (35 ∷ 127 ∷ []) ≡ Err LineFault.BadByte }
    ensures last_byte { line_of 2 (35 ∷ 255 ∷ []) ≡ Err LineFault.BadByte }
    ensures carriage_return { line_of 2 (codes "1 fly" ++ 13 ∷ []) ≡ Err LineFault.BadByte }
    ensures late_comment { line_of 2 (codes " # 1") ≡ Err LineFault.BadClient }
    ensures client_0 { line_of 2 (codes "0 get x") ≡ Err LineFault.BadClient }
    ensures client_65 { line_of 2 (codes "65 fly") ≡ Err LineFault.BadClient }
    ensures client_01 { line_of 2 (codes "01 get x") ≡ Err LineFault.BadClient }
    ensures client_signed { line_of 2 (codes "+1 get x") ≡ Err LineFault.BadClient }
    ensures no_command { line_of 2 (codes "1") ≡ Err LineFault.BadCommand }
    ensures other_command { line_of 2 (codes "1 fly x") ≡ Err LineFault.BadCommand }
    ensures few_words { line_of 2 (codes "1 get") ≡ Err LineFault.BadWords }
    ensures many_words { line_of 2 (codes "1 commit x") ≡ Err LineFault.BadWords }
    ensures not_on { line_of 2 (codes "1 begin x off 9") ≡ Err LineFault.BadWords }
    ensures uuid_first { line_of 2 (codes "1 begin x on 9") ≡ Err LineFault.BadUuid }
    ensures node_3 { line_of 2 (codes "1 begin @1 on 3") ≡ Err LineFault.BadNode }
    ensures node_0 { line_of 2 (codes "1 crash 0") ≡ Err LineFault.BadNode }
    ensures key_first { line_of 2 (codes "1 put 12345678901234567890123456789012345678901234567890123456789012345 #0") ≡ Err LineFault.BadKey }
    ensures odd_digits { line_of 2 (codes "1 put x #0") ≡ Err LineFault.BadValue }
    ensures no_digit { line_of 2 (codes "1 put x #0g") ≡ Err LineFault.BadValue }
{}

/// What some scripts and orders are read as.
pub fn known_texts()
    ensures nothing { script_of default_settings [] ≡ Ok [] }
    ensures last_line { script_of default_settings (10 ∷ codes "2 abort" ++ 13 ∷ 10 ∷ codes "1 commit") ≡ Ok (record { number = 2; client = 2; order = Command.Abort } ∷ record { number = 3; client = 1; order = Command.Commit } ∷ []) }
    ensures late_return { script_of default_settings (codes "2 abort" ++ 13 ∷ []) ≡ Err (ScriptFault.Line 1 LineFault.BadByte) }
    ensures two_returns { script_of default_settings (codes "2 abort" ++ 13 ∷ 13 ∷ 10 ∷ []) ≡ Err (ScriptFault.Line 1 LineFault.BadByte) }
    ensures third_line { script_of default_settings (codes "1 abort" ++ 10 ∷ codes "#" ++ 10 ∷ codes "1 fly" ++ 10 ∷ codes "65") ≡ Err (ScriptFault.Line 3 LineFault.BadCommand) }
    ensures second_backup { script_of default_settings (codes "1 backup" ++ 10 ∷ codes "1 backup") ≡ Err (ScriptFault.Line 2 LineFault.TooManyRounds) }
    ensures no_rounds { script_of (record { nodes = 2; cache = 1; mailbox = 1; rounds = 19 }) (codes "1 manager" ++ 10 ∷ codes "1 collect" ++ 10 ∷ codes "1 manager") ≡ Err (ScriptFault.Line 3 LineFault.TooManyRounds) }
    ensures steps { order_of (record { number = 1; client = 7; order = Command.Abort } ∷ []) (codes " 7*" ++ 10 ∷ codes "7 ") ≡ Ok (record { client = 7; whole = true } ∷ record { client = 7; whole = false } ∷ []) }
    ensures other_client { order_of (record { number = 1; client = 7; order = Command.Abort } ∷ []) (codes "7 8") ≡ Err (ScriptFault.Word 2) }
    ensures two_stars { order_of (record { number = 1; client = 7; order = Command.Abort } ∷ []) (codes "7**") ≡ Err (ScriptFault.Word 1) }
    ensures return_in_order { order_of (record { number = 1; client = 7; order = Command.Abort } ∷ []) (codes "7" ++ 13 ∷ 10 ∷ []) ≡ Err (ScriptFault.Word 1) }
{}

/// The generated script of one transaction whose draws begin at 7.
pub fn known_generated()
    ensures { generated_lines 1 7 ≡ record { number = 1; client = 1; order = Command.Begin (to_be_bytes w128 1) 1 } ∷ record { number = 2; client = 1; order = Command.Put (codes "k31") (codes "v1") } ∷ record { number = 3; client = 1; order = Command.Put (codes "k3") (codes "v1") } ∷ record { number = 4; client = 1; order = Command.Commit } ∷ [] }
{}
