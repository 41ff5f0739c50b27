ghost use Rattle.std.specs.Prelude.{◌≡◌, true, false, IfOk, IfErr, OnOk};
ghost use Rattle.vub_model.specs.Service.{meaning};
ghost use Rattle.vub_handler.specs.Opening.{is_greatest_size};
ghost use Rattle.vub_daemon.specs.Causes.{IsMakingError};
ghost use Rattle.vub_daemon.specs.Reports.{IsReport, IsReportError};

use crate::connection::Connection;
use crate::duties::{DaemonEnd, DaemonJob};
use crate::ends::{Report, compared, join_workers};
use crate::error::Error;
use crate::opening::{Opening, open_daemon};
use crate::starting::{send_exits, start_workers};
use crate::tasks::WorkerTask;
use std::alloc::Global;
use std::marker::Model;
use std::sync::{Arc, Mutex, Wait};
use vub_attend::Link;
use vub_base::OutOfMemory;
use vub_handler::{EpollHandle, VhostUserHandler};
use vub_locks::{Gate, SharedParts};
use vub_proto::{Service, VhostUserBackendMut};
use vub_threads::{Spawner, Task};

/// A device daemon in running threads (`VhostUserDaemon` of the Rust crate `vhost-user-backend`): a thread for each
/// worker, and while it is connected a control thread that plays the requests of a link. They share parts under locks.
/// It must be closed.
#[derive(Drop)]
pub struct VhostUserDaemon<
    R: Wait + Copy,
    D: VhostUserBackendMut,
    V: Service,
    G: Gate + Drop,
    K: Link + Drop,
    T: Task<DaemonEnd> + Drop,
    S: Drop,
> {
    pub(crate) rt: R,
    pub(crate) alloc: Global,
    pub(crate) name: String,
    pub(crate) shared: Arc<SharedParts<D, V, G>, Global>,
    pub(crate) handler: Arc<Mutex<VhostUserHandler>, Global>,
    pub(crate) handles: Vec<EpollHandle>,
    pub(crate) spawner: S,
    pub(crate) workers: Vec<WorkerTask<T>>,
    pub(crate) control: Option<Connection<T, K::Closer>>,
}

impl<
    R: Wait + Copy,
    D: VhostUserBackendMut,
    V: Service,
    G: Gate + Drop,
    K: Link + Drop,
    T: Task<DaemonEnd> + Drop,
    S: Drop,
> Model for VhostUserDaemon<R, D, V, G, K, T, S> {
    ghost use Rattle.std.specs.Prelude.{is_some};
    ghost use Rattle.vub_daemon.specs.Daemon.{Daemon};

    ghost Value = { Daemon S };

    ghost view = { λ d. record {
      spawner = d.spawner;
      connected = is_some d.control;
      handles = d.handles.items;
    } };
}

impl<
    R: Wait + Copy,
    D: VhostUserBackendMut,
    V: Service,
    G: Gate + Drop,
    K: Link + Drop,
    T: Task<DaemonEnd> + Drop,
    S: Spawner<DaemonJob<R, D, V, G, K>, Task = T> + Drop,
> VhostUserDaemon<R, D, V, G, K, T, S> {
    /// Makes the parts of a device and a service, with a queue of the greatest size for each of the device's, and an
    /// event for each mask, numbered from 0; opens a worker for each mask, and starts a thread for each. Guest memory
    /// is empty. An exit object of the device that is none of those events ends no worker; where one has none, `close`
    /// waits for it for ever, and so may `new` where it is refused. The name is that of control threads.
    ///
    /// # Errors
    /// `CreateVring` exactly where the greatest size of a queue is no power of two from 1 to 32768; `SpawnVringWorker`
    /// only where the spawner's count rose; want of memory. The workers that were started have ended, and the spawner
    /// is handed back.
    pub fn new(
        rt: R,
        alloc: Global,
        name: String,
        device: D,
        service: V,
        spawner: S,
        gate: G,
    ) -> Result<VhostUserDaemon<R, D, V, G, K, T, S>, (Error, S)>
        requires { S.can_spawn spawner }
        ensures can { IfOk result (λ d. S.can_spawn d.spawner) }
        ensures connected { IfOk result (λ d. d.connected ≡ false) }
        ensures count { IfOk result (λ d. S.fault_count d.spawner ≡ S.fault_count spawner) }
        ensures size { OnOk result (is_greatest_size (D.greatest_size device) ≡ true) }
        ensures back { IfErr result (λ e. S.can_spawn e.1) }
        ensures err { IfErr result (λ e. IsMakingError (D.greatest_size device)
            (S.fault_count spawner) (S.fault_count e.1) e.0) }
    {
        let opening = match open_daemon(rt, alloc, device, service, gate) {
            Ok(opening) => opening,
            Err(error) => return Err((error, spawner)),
        };
        let Opening {
            shared,
            handler,
            opened,
            handles,
        } = opening;
        let mut spawner = spawner;
        let mut workers = Vec::new(alloc);
        let started = start_workers(
            rt,
            alloc,
            &mut spawner,
            &shared,
            opened.as_slice(),
            &mut workers,
        );
        match started {
            Ok(()) => Ok(VhostUserDaemon {
                rt,
                alloc,
                name,
                shared,
                handler,
                handles,
                spawner,
                workers,
                control: None,
            }),
            Err(error) => {
                send_exits(&rt, alloc, &*shared, handles.as_slice());
                let _ends = join_workers(alloc, workers);
                Err((error, spawner))
            }
        }
    }
}

impl<
    R: Wait + Copy,
    D: VhostUserBackendMut,
    V: Service,
    G: Gate + Drop,
    K: Link + Drop,
    T: Task<DaemonEnd> + Drop,
    S: Drop,
> VhostUserDaemon<R, D, V, G, K, T, S> {
    /// A handle of each worker, by number.
    ///
    /// # Errors
    /// Want of memory.
    pub fn get_epoll_handlers(&self) -> Result<Vec<EpollHandle>, OutOfMemory>
        ensures { IfOk result (λ handles. handles.items ≡ self.now.handles) }
    {
        let handles = Vec::from_slice(self.alloc, self.handles.as_slice())?;
        Ok(handles)
    }

    /// Tells the workers to end, waits until they have, and compares their records of what they used with the calls of
    /// the service. Gives the spawner back too. What was published and not used then may stay unserved.
    ///
    /// # Errors
    /// As of `close`.
    pub fn close_and_give_back(self) -> (Result<Report, Error>, S)
        requires { self.connected ≡ false }
        ensures same { IfOk result.0 (IsReport (meaning V.reply_of V.after)) }
        ensures differ { IfErr result.0 IsReportError }
        ensures spawner { result.1 ≡ self.spawner }
    {
        let VhostUserDaemon {
            rt,
            alloc,
            shared,
            handles,
            spawner,
            workers,
            ..
        } = self;
        send_exits(&rt, alloc, &*shared, handles.as_slice());
        let ends = join_workers(alloc, workers);
        (compared(&rt, alloc, &*shared, ends), spawner)
    }

    /// Tells the workers to end, waits until they have, and compares their records of what they used with the calls of
    /// the service. What was published and not used then may stay unserved.
    ///
    /// # Errors
    /// `Mismatch` with what stands at the first place, in order of serial, at which they differ. Want of memory; and
    /// where it ended a worker, nothing is compared.
    pub fn close(self) -> Result<Report, Error>
        requires { self.connected ≡ false }
        ensures same { IfOk result (IsReport (meaning V.reply_of V.after)) }
        ensures differ { IfErr result IsReportError }
    {
        let (closed, _spawner) = self.close_and_give_back();
        closed
    }
}
