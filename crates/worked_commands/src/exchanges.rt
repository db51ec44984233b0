//! What `exec` makes of a list with context preserved, which exchanges page 2 and page 13 by way of the swap page 11.

ghost use Rattle.std.specs.Prelude.{◌≡◌, true, false, Ok, Err};
ghost use Rattle.file_commands.specs.Taking.{by};
ghost use Rattle.list_commands.specs.Exec.{CanExec};
ghost use Rattle.list_commands.specs.Records.{load_by};
ghost use Rattle.command_parts.specs.Outputs.{Made};
ghost use Rattle.command_parts.specs.declared.reason.Reason.TheVariants as reasons;
ghost use Rattle.worked_commands.specs.Execs.{exec_makes};
ghost use Rattle.worked_commands.specs.Kept.{exchange_memory, exchange_record, once_goods, twice_goods};

/// One run: page 2 has `abc`, page 13 has what page 2 had, and the swap page has `abc`. Two runs: both pages are as they
/// were, and the swap page has what page 2 had.
pub fn kept_list_is_run()
    ensures once { exec_makes false (load_by exchange_memory exchange_record) (Ok once_goods) }
    ensures twice { exec_makes true (load_by exchange_memory exchange_record) (Ok twice_goods) }
    ensures nothing_else_once { (goods : Made)
        → exec_makes false (load_by exchange_memory exchange_record) (Ok goods)
        → goods ≡ once_goods }
    ensures nothing_else_twice { (goods : Made)
        → exec_makes true (load_by exchange_memory exchange_record) (Ok goods)
        → goods ≡ twice_goods }
    ensures kept { exec_makes true (load_by exchange_memory exchange_record)
        (Err (by reasons.NotKept)) → ⊥ }
    ensures can { CanExec (load_by exchange_memory exchange_record) true }
{}
