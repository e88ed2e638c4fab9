ghost use Rattle.std.specs.Prelude.{◌≡◌, ◌<◌, false, [], None, All, IfOk, length, map, replicate};
ghost use Rattle.group_types.specs.Lists.{at};
ghost use Rattle.group_types.specs.Names.{IsProcess};
ghost use Rattle.group_types.specs.Shape.{IsShape};
ghost use Rattle.group_run.specs.Process.{heads_at_start};
ghost use Rattle.partition_replica.specs.State.{IsTidyBut};
ghost use Rattle.group_run.specs.Replica.{empty_replica, last_of};
ghost use Rattle.process_service.specs.Standing.{at_start};

use group_types::{Partition, ProcessId, Rank, Shape};
use head_service::{Head, Held, Peers};
use membership::Members;
use partition_replica::Replica;
use std::alloc::{AllocError, Global};
use std::marker::Model;

/// What a process keeps of the group's partitions: a replica of each, the rank under which it follows each, the
/// heads of those that it heads, and the calls that it holds.
#[derive(Drop)]
pub struct Service {
    pub(crate) alloc: Global,
    pub(crate) shape: Shape,
    pub(crate) name: ProcessId,
    pub(crate) known: Members,
    pub(crate) replicas: Vec<Replica>,
    pub(crate) ranks: Vec<Rank>,
    pub(crate) heads: Vec<Option<Head>>,
    pub(crate) held: Vec<Vec<Held>>,
}

impl Model for Service {
    ghost use Rattle.std.specs.Prelude.{length, map};
    ghost use Rattle.head_service.specs.Serving.{Serving};
    ghost use Rattle.process_service.specs.Standing.{IsServingState};

    ghost Value = { Serving };

    ghost view = { λ s. record {
      shape = s.shape;
      name = s.name;
      known = s.known;
      replicas = map (λ r. r.replica) s.replicas.items;
      ranks = map (λ r. r.0) s.ranks.items;
      heads = s.heads.items;
      held = map (λ h. h.items) s.held.items;
    } };

    ghost invariant = { λ s. IsServingState s.shape s.name s.known s.replicas.items (length s.ranks.items) s.heads.items (length s.held.items) };
}

impl Service {
    /// What a process keeps at the start, where nobody is known dead.
    pub fn new(alloc: Global, shape: Shape, name: ProcessId) -> Result<Service, AllocError>
        requires { IsProcess shape name }
        ensures value { IfOk result (λ service. service ≡ at_start shape name) }
        ensures limits { IfOk result (λ _. IsShape shape) }
    {
        Ok(Service {
            alloc,
            shape,
            name,
            known: Members::new(shape),
            replicas: replicas(alloc, shape)?,
            ranks: ranks(alloc, shape.k())?,
            heads: heads(alloc, shape, name)?,
            held: held(alloc, shape.k())?,
        })
    }

    /// The shape of the group.
    pub fn shape(&self) -> Shape
        ensures { result ≡ self.now.shape }
    {
        self.shape
    }

    /// Which process it is.
    pub fn name(&self) -> ProcessId
        ensures value { result ≡ self.now.name }
        ensures process { IsProcess self.now.shape self.now.name }
    {
        self.name
    }

    /// Who is known dead.
    pub fn known(&self) -> Members
        ensures { result ≡ self.now.known }
    {
        self.known
    }

    /// The rank under which it follows each partition.
    pub fn ranks(&self) -> &[Rank]
        ensures value { map (λ r. r.0) result.now ≡ self.now.ranks }
        ensures length { length result.now ≡ self.now.shape.k }
    {
        &self.ranks
    }

    /// Its replica of each partition.
    pub fn replicas(&self) -> &[Replica]
        ensures value { map (λ r. r.replica) result.now ≡ self.now.replicas }
        ensures length { length result.now ≡ self.now.shape.k }
    {
        &self.replicas
    }

    /// The number up to which a partition is applied.
    pub fn applied(&self, partition: Partition) -> u64
        requires { partition.0 < self.now.shape.k }
        ensures { result ≡ (at empty_replica self.now.replicas partition.0).applied }
    {
        self.replicas[partition.0 as usize].applied()
    }

    /// The rank under which the process follows a partition.
    pub fn rank(&self, partition: Partition) -> Rank
        requires { partition.0 < self.now.shape.k }
        ensures { result.0 ≡ at 0 self.now.ranks partition.0 }
    {
        self.ranks[partition.0 as usize]
    }

    /// The last number that an update of a partition has.
    pub fn last(&self, partition: Partition) -> u64
        requires { partition.0 < self.now.shape.k }
        ensures { result ≡ last_of (at empty_replica self.now.replicas partition.0) }
    {
        self.replicas[partition.0 as usize].last()
    }

    /// The other parity processes, as the process knows them.
    pub fn peers(&self) -> Peers
        ensures shape { result.known.shape ≡ self.now.shape }
        ensures m { result.m ≡ self.now.shape.m }
        ensures name { result.name ≡ self.now.name }
        ensures known { result.known ≡ self.now.known }
    {
        Peers {
            m: self.shape.m(),
            name: self.name,
            known: self.known,
        }
    }
}

fn replicas(alloc: Global, shape: Shape) -> Result<Vec<Replica>, AllocError>
    ensures content { IfOk result (λ all. map (λ r. r.replica) all.items ≡ replicate shape.k empty_replica) }
    ensures shape { IfOk result (λ all. All (λ r. r.shape ≡ shape) all.items) }
    ensures tidy { IfOk result (λ all. All (λ r. IsTidyBut r (λ _. false)) all.items) }
{
    let mut all = Vec::with_capacity(alloc, shape.k() as usize)?;
    'partitions: for _ in 0..shape.k() {
        all.push(Replica::new(alloc, shape)?)?;
    }
    Ok(all)
}

fn ranks(alloc: Global, k: u32) -> Result<Vec<Rank>, AllocError>
    ensures { IfOk result (λ ranks. map (λ r. r.0) ranks.items ≡ replicate k 0) }
{
    let mut ranks = Vec::with_capacity(alloc, k as usize)?;
    'partitions: for _ in 0..k {
        ranks.push(Rank(0))?;
    }
    Ok(ranks)
}

// A data process heads its own partition.
fn heads(alloc: Global, shape: Shape, name: ProcessId) -> Result<Vec<Option<Head>>, AllocError>
    requires { IsProcess shape name }
    ensures { IfOk result (λ heads. heads.items ≡ heads_at_start shape name) }
{
    let mut heads = no_heads(alloc, shape.k())?;
    match name {
        ProcessId::ParityNode(_) => Ok(heads),
        ProcessId::DataNode(d) => {
            let head = Head::new(alloc, shape, Rank(0), 0)?;
            heads[d as usize] = Some(head);
            Ok(heads)
        }
    }
}

fn no_heads(alloc: Global, k: u32) -> Result<Vec<Option<Head>>, AllocError>
    ensures { IfOk result (λ heads. heads.items ≡ replicate k None) }
{
    let mut heads = Vec::with_capacity(alloc, k as usize)?;
    'partitions: for _ in 0..k {
        heads.push(None)?;
    }
    Ok(heads)
}

fn held(alloc: Global, k: u32) -> Result<Vec<Vec<Held>>, AllocError>
    ensures { IfOk result (λ held. map (λ h. h.items) held.items ≡ replicate k []) }
{
    let mut held = Vec::with_capacity(alloc, k as usize)?;
    'partitions: for _ in 0..k {
        held.push(Vec::new(alloc))?;
    }
    Ok(held)
}
