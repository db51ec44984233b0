//! Runs of `exec` of which all that is promised is so but one field; and which fields follow from the others.

ghost use Rattle.std.specs.Prelude.{◌≡◌, []};
ghost use Rattle.std.specs.FinMap.{empty};
ghost use Rattle.segments.specs.inner.Rules.{IsBare};
ghost use Rattle.load_states.specs.Ready.{Told};
ghost use Rattle.load_states.specs.Runs.{EndsAfter};
ghost use Rattle.load_states.specs.States.{Checked};
ghost use Rattle.kexec_words.specs.Values.{ExecValue};
ghost use Rattle.page_memory.specs.Contents.{Contents};
ghost use Rattle.load_record.specs.File.{Record};
ghost use Rattle.list_commands.specs.Exec.{load_of, runs_asked};
ghost use Rattle.list_commands.specs.Records.{list_files};
ghost use Rattle.command_parts.specs.Runs.{EndsAgain, Leaves, MachineLeaves, after_runs};
ghost use Rattle.worked_commands.specs.Drawn.{found};
ghost use Rattle.worked_commands.specs.Execs.{ran_text};
ghost use Rattle.worked_commands.specs.Lists.{plain_record};
ghost use Rattle.worked_commands.specs.Memories.{loaded_file, run_file};
ghost use Rattle.worked_commands.specs.Wrong.{ExecNeeds, ExecsTo, control_found, control_record, nothing_found, text_of_exec, with_x};

/// The right run: OUT is the file of the memory after it.
pub fn right_exec()
    ensures { ExecsTo plain_record (with_x run_file) ran_text }
{}

/// The list of the done word alone was run; a list was run that is not accepted, since its control page is a source; OUT is
/// empty; there is no OUT; nothing was said.
pub fn fields_that_an_exec_needs()
    ensures of_files { ExecNeeds 0 plain_record nothing_found loaded_file (with_x loaded_file)
        (text_of_exec plain_record nothing_found) }
    ensures accepted { ExecNeeds 1 control_record control_found run_file (with_x run_file)
        (text_of_exec control_record control_found) }
    ensures is_memory { ExecNeeds 6 plain_record found [] (with_x []) ran_text }
    ensures put { ExecNeeds 7 plain_record found run_file empty ran_text }
    ensures said { ExecNeeds 8 plain_record found run_file (with_x run_file) [] }
{}

/// The other fields follow from the accepted list, of each record whose segments break no rule, as those of each record that
/// is read.
pub fn fields_that_follow_from_an_accepted_list()
    ensures ends { (m : Contents) (r : Record) (c : Checked) → IsBare r.segments
        → c.load ≡ load_of (list_files m r) → Told c.load c.words c.links c.pairs
        → EndsAfter c.load c.words }
    ensures ends_again { (e : ExecValue) (m : Contents) (r : Record) (c : Checked)
        → IsBare r.segments → c.load ≡ load_of (list_files m r)
        → Told c.load c.words c.links c.pairs
        → EndsAgain (runs_asked e.twice (list_files m r)) c }
    ensures runs { (e : ExecValue) (m : Contents) (r : Record) (c : Checked)
        → IsBare r.segments → c.load ≡ load_of (list_files m r)
        → Told c.load c.words c.links c.pairs
        → MachineLeaves (runs_asked e.twice (list_files m r)) c }
    ensures leaves { (e : ExecValue) (m : Contents) (r : Record) (c : Checked)
        → c.load ≡ load_of (list_files m r) → Told c.load c.words c.links c.pairs
        → Leaves (runs_asked e.twice (list_files m r)) c
        (after_runs (runs_asked e.twice (list_files m r)) c) }
{}
