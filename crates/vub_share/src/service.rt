ghost use Rattle.std.specs.Prelude.{◌≡◌, true, IfOk};
ghost use Rattle.vub_script.specs.Directory.{is_served};
ghost use Rattle.vub_share.specs.Service.{service_from};

use std::alloc::Global;
use vub_base::{Bytes, OutOfMemory};
use vub_block::{BlockError, BlockService};
use vub_dir::{DirService, Tree, TreeError};
use vub_proto::{Echo, Service};
use vub_script::ServiceForm;

/// The service of a script: one of those that a script may ask for.
#[derive(Drop)]
pub enum ScriptService {
    Echo(Echo),
    Directory(DirService),
    Disk(BlockService),
}

impl ScriptService {
    /// The service that a script asks for, before its first request.
    ///
    /// # Errors
    /// Want of memory.
    pub fn new(alloc: Global, form: ServiceForm) -> Result<ScriptService, OutOfMemory>
        requires { is_served form ≡ true }
        ensures { IfOk result (λ service. service ≡ service_from form) }
    {
        match form {
            ServiceForm::Echo => Ok(ScriptService::Echo(Echo)),
            ServiceForm::Dir(entries) => match Tree::new(alloc, entries.as_slice()) {
                Ok(tree) => Ok(ScriptService::Directory(DirService::new(alloc, tree)?)),
                Err(TreeError::OutOfMemory) => Err(OutOfMemory),
                Err(_) => unreachable!("the entries make a tree"),
            },
            ServiceForm::Block { sectors, id } => match BlockService::new(
                alloc,
                sectors,
                id.as_slice(),
            ) {
                Ok(disk) => Ok(ScriptService::Disk(disk)),
                Err(BlockError::OutOfMemory) => Err(OutOfMemory),
                Err(_) => unreachable!("sectors and id make a disk"),
            },
        }
    }
}

impl Service for ScriptService {
    ghost use Rattle.vub_share.specs.Service.{script_reply, script_after};

    ghost reply_of = { λ s request room. script_reply s request room };

    ghost after = { λ s request room. script_after s request room };

    fn serve(&mut self, alloc: Global, request: &[u8], room: u32) -> Result<Bytes, OutOfMemory> {
        match self {
            ScriptService::Echo(echo) => echo.serve(alloc, request, room),
            ScriptService::Directory(directory) => directory.serve(alloc, request, room),
            ScriptService::Disk(disk) => disk.serve(alloc, request, room),
        }
    }
}
