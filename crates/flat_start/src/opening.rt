//! The flat state at the start.
ghost use Rattle.std.specs.Prelude.{◌≡◌, ◌≤◌, ◌*◌, [], IfOk, OnOk, length, map};
ghost use Rattle.std.specs.List.{range_with_len};
ghost use Rattle.access_times.specs.Riding.{none_carrying, none_riding};
ghost use Rattle.rtr_types.specs.declared.params.TheConstants.{LIMIT_MAX};
ghost use Rattle.rtr_types.specs.declared.TheConstants.{CORES_MAX};
ghost use Rattle.machine_data.specs.Coherent.{opening_memory};
ghost use Rattle.msi_state.specs.States.{state_start};
ghost use Rattle.flat_state.specs.Shows.{Stands};
ghost use Rattle.flat_start.specs.Starts.{node_start};

use flat_state::{Ask, Flat, HomeBlock, KeptLine, MessageRing, Node, ReplyRing};
use image_mem::Image;
use msi_cache::State;
use rv_core::{Core, Program};
use std::alloc::{AllocError, Global};

/// The flat state of so many cores that are to run an image, each with this limit, before its first move. The only
/// refusal is want of memory.
pub fn start(alloc: Global, image: Image, cores: u8, limit: u32) -> Result<Flat, AllocError>
    requires cores { cores ≤ CORES_MAX }
    requires limit { limit ≤ LIMIT_MAX }
    requires room { length image.bytes ≤ 4 * image.words }
    ensures stands { IfOk result (λ f. Stands f (state_start none_riding none_carrying image cores limit)
        (opening_memory image)) }
    ensures empty { IfOk result (λ f. f.home.items ≡ []) }
    ensures nodes { IfOk result (λ f. f.nodes.items
        ≡ map (λ id. node_start f.program id limit) (range_with_len 0 cores)) }
{
    let program = Program::new(alloc, image)?;
    start_on(program, Vec::new(alloc), Vec::new(alloc), cores, limit)
}

/// The flat state of so many cores that are to run a program, each with this limit, before its first move. What stood
/// in these lists goes, and their room serves again. The only refusal is want of memory.
pub fn start_on(
    program: Program,
    nodes: Vec<Node>,
    home: Vec<HomeBlock>,
    cores: u8,
    limit: u32,
) -> Result<Flat, AllocError>
    requires cores { cores ≤ CORES_MAX }
    requires limit { limit ≤ LIMIT_MAX }
    requires room { length program.bytes ≤ 4 * program.words }
    ensures stands { IfOk result (λ f. Stands f (state_start none_riding none_carrying program cores limit)
        (opening_memory program)) }
    ensures empty { IfOk result (λ f. f.home.items ≡ []) }
    ensures nodes { IfOk result (λ f. f.nodes.items
        ≡ map (λ id. node_start f.program id limit) (range_with_len 0 cores)) }
{
    let mut nodes = nodes;
    let mut home = home;
    nodes.clear();
    home.clear();
    put_nodes(&mut nodes, &program, cores, limit)?;
    Ok(Flat {
        program,
        nodes,
        home,
    })
}

/// Puts the cores at their ports, by number, into a list that has nothing. The only refusal is want of memory.
#[tactic(auto, using(rtr_types::proofs::Ranges::map_range_more))]
fn put_nodes(
    nodes: &mut Vec<Node>,
    program: &Program,
    cores: u8,
    limit: u32,
) -> Result<(), AllocError>
    requires { nodes.old.items ≡ [] }
    ensures { OnOk result (nodes.new.items ≡ map (λ id. node_start program.now id limit) (range_with_len 0 cores)) }
{
    for id in 0..cores {
        nodes.push(node_at_start(program, id, limit))?;
    }
    Ok(())
}

/// A core at its port: its lines hold nothing, and nothing is on its way.
fn node_at_start(program: &Program, id: u8, limit: u32) -> Node
    ensures { result ≡ node_start program.now id limit }
{
    let core = Core::new(id, limit);
    let op = program.op(core.pc());
    let need = core.need_by_op(program.image(), op);
    Node {
        core,
        need,
        op,
        lines: [KeptLine {
            block: 0,
            place: 0,
            state: State::I,
        }; 16],
        asks: false,
        ask: Ask::GetS,
        place: 0,
        replies: ReplyRing::new(),
        messages: MessageRing::new(),
    }
}
