//! What is told of a player, in lines.

use crate::called::say;
use crate::queue_lines::say_queue;
use eevdf_ops::CpuId;
use eevdf_queue::TaskId;
use eevdf_steps::{Place, Player};

/// Prints what is told of a player, of each of its CPUs and of each of its tasks.
pub fn say_player(rt: &impl Print, player: &Player) {
    let lines = player.history().len();
    let _ = println!(rt; "lines {lines}");
    for number in 0..CpuId::COUNT as u64 {
        if let Some(cpu) = CpuId::new(number) {
            say_cpu(rt, player, cpu);
        }
    }
    for number in 0..TaskId::COUNT as u64 {
        if let Some(task) = TaskId::new(number) {
            say_place(rt, player, task);
        }
    }
}

fn say_cpu(rt: &impl Print, player: &Player, cpu: CpuId) {
    if player.has_cpu(cpu) {
        if let Some(caller) = player.holder(cpu) {
            let _ = println!(rt; "held by {caller}");
        }
        say_queue(rt, player.queue(cpu));
    }
}

fn say_place(rt: &impl Print, player: &Player, task: TaskId) {
    if player.has_task(task) {
        match player.place_of(task) {
            Place::Runnable(_) => say(rt, "runnable"),
            Place::Asleep(_) => say(rt, "asleep"),
            Place::InHand(_) => say(rt, "in hand"),
        }
    }
}
