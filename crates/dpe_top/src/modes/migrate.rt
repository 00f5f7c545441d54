//! Mode migrate: the workload file that is read, in version 2.
ghost use Rattle.std.specs.Prelude.{IfOk};
ghost use Rattle.dpe_top.specs.Modes.Migrate.{migration};
ghost use Rattle.dpe_top.specs.Replies.{Replies};

use crate::lines::fault_line;
use crate::reply::Reply;
use crate::status::Outcome;
use query_forms::rewrite;
use query_json::FileFault;
use std::alloc::{AllocError, Global};

/// The file in version 2 and a newline, or the line of its fault.
pub fn reply(alloc: Global, bytes: &[u8]) -> Result<Reply, AllocError>
    ensures { IfOk result (Replies (migration.answer bytes.now)) }
{
    match rewrite(alloc, bytes) {
        Ok(file) => {
            let mut text = file;
            text.push(b'\n')?;
            Ok(Reply {
                outcome: Outcome::Done,
                text,
            })
        }
        Err(FileFault::NoMemory) => Err(AllocError),
        Err(fault) => Ok(Reply {
            outcome: Outcome::Input,
            text: fault_line(alloc, &fault)?.into_bytes(),
        }),
    }
}
