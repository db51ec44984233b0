//! What a command made goes out: the files in their order, then the text.

ghost use Rattle.std.specs.Prelude.{◌≡◌, None, map, string_bytes, OnOk, IfErr};
ghost use Rattle.file_commands.specs.Answers.{Delivers, PutAll, PutUpTo};
ghost use Rattle.file_commands.specs.inner.Calls.{call_answer, goods_of, file_of};

use crate::stop::Stop;
use command_table::Role;
use kx_edge::{PutFailed, SayFailed, Shelf, Sink};

/// A file: its role in the command, its name and its bytes.
#[derive(Drop)]
pub struct File {
    pub role: Role,
    pub name: String,
    pub bytes: Vec<u8>,
}

/// What a command made: its outputs in the order in which they are put, its text, and a fault that is answered last.
#[derive(Drop)]
pub struct Goods<F> {
    pub outputs: Vec<File>,
    pub text: String,
    pub fault: Option<F>,
}

impl<F> Goods<F> {
    /// Goods without a fault.
    pub fn done(outputs: Vec<File>, text: String) -> Goods<F>
        ensures { result ≡ record { outputs = outputs; text = text; fault = None } }
    {
        Goods {
            outputs,
            text,
            fault: None,
        }
    }
}

// Puts the outputs in their order, up to the first that fails, which is answered.
fn put_all<S: Shelf>(outputs: Vec<File>, shelf: &mut S) -> Result<(), File>
    ensures whole { OnOk result (PutAll S.Shelf (map file_of outputs.items) shelf.old shelf.new) }
    ensures cut { IfErr result
        (λ file. PutUpTo S.Shelf (map file_of outputs.items) shelf.old (string_bytes file.name)
        shelf.new) }
{
    for file in outputs {
        if let Err(PutFailed) = shelf.put(&file.name, &file.bytes) {
            return Err(file);
        }
    }
    Ok(())
}

/// Puts all outputs and says the text. Nothing is put or said after a failure. A fault of the goods is answered last.
pub fn deliver<S: Shelf, O: Sink, F: Drop, R>(
    goods: Goods<F>,
    shelf: &mut S,
    out: &mut O,
) -> Result<(), Stop<F, R>>
    ensures { Delivers S.Shelf O.Sink (goods_of goods) shelf.old out.old (call_answer result)
        shelf.new out.new }
{
    let Goods {
        outputs,
        text,
        fault,
    } = goods;
    if let Err(File { role, name, .. }) = put_all(outputs, shelf) {
        return Err(Stop::Unwritten { role, name });
    }
    if let Err(SayFailed) = out.say(text.as_bytes()) {
        return Err(Stop::Unsaid);
    }
    match fault {
        Some(fault) => Err(Stop::NotAccepted { fault }),
        None => Ok(()),
    }
}
