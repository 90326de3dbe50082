//! Numbers of tasks that are taken and given back, by one home and by parts of several CPUs.

mod two_takers;

use crate::fixtures::{asleep_at_each, cpu, on_two_cpus, task};
use eevdf_free_tasks::{FreePart, FreeTasks, TakenTask, TakenTasks, free_parts};
use std::alloc::Global;
use std::process::Abort;

/// Two CPUs. The even numbers have the first as their home, the odd ones the second, and task 0 is runnable at first.
const HOMES: [(u64, bool); 5] = [(0, false), (1, true), (0, true), (1, true), (0, true)];

/// Asks that a number was taken, which has to be this one, or that none was.
fn is_number(rt: &impl Abort, taken: Option<TakenTask>, number: Option<u64>) {
    let found = taken.map(|taken| taken.retire().get());
    assert!(rt; found == number);
}

/// A number that was taken, which has to be this one.
fn number_of(rt: &impl Abort, taken: Option<TakenTask>, number: u64) -> TakenTask {
    let taken = taken.expect(rt, "a number");
    assert!(rt; taken.task() == task(rt, number));
    taken
}

/// Asks that a number was given back, or that this one was refused.
fn is_refused(rt: &impl Abort, given: Result<(), TakenTask>, number: Option<u64>) {
    is_number(rt, given.err(), number);
}

#[test]
fn each_number_of_a_home_is_handed_out_once(rt: HostRuntime) {
    let rt = &rt;
    let setup = on_two_cpus(rt, rt.alloc(), &HOMES);
    let mut free = FreeTasks::of_home(rt.alloc(), &setup, cpu(rt, 0)).expect(rt, "memory");
    let two = number_of(rt, free.take(), 2);
    let four = number_of(rt, free.take(), 4);
    is_number(rt, free.take(), None);

    // Task 0 is runnable at first, and its number is taken once. Task 1 has another home, task 9 none; task 2 isn't awake.
    assert!(rt; !free.is_taken(task(rt, 0)));
    let zero = number_of(rt, free.take_begun(task(rt, 0)), 0);
    assert!(rt; free.is_taken(task(rt, 0)));
    for number in [0, 1, 2, 9] {
        is_number(rt, free.take_begun(task(rt, number)), None);
    }

    // What was free longest is handed out next.
    is_refused(rt, free.give_back(four), None);
    is_refused(rt, free.give_back(zero), None);
    is_refused(rt, free.give_back(two), None);
    for number in [4, 0, 2] {
        is_number(rt, free.take(), Some(number));
    }
    is_number(rt, free.take(), None);
}

#[test]
fn a_number_of_another_home_or_machine_is_refused(rt: HostRuntime) {
    let rt = &rt;
    let setup = on_two_cpus(rt, rt.alloc(), &HOMES);
    let mut free = FreeTasks::of_home(rt.alloc(), &setup, cpu(rt, 0)).expect(rt, "memory");
    let mut second = FreeTasks::of_home(rt.alloc(), &setup, cpu(rt, 1)).expect(rt, "memory");
    let mut again = FreeTasks::of_home(rt.alloc(), &setup, cpu(rt, 0)).expect(rt, "memory");
    is_refused(rt, free.give_back(number_of(rt, second.take(), 1)), Some(1));
    is_refused(rt, free.give_back(number_of(rt, again.take(), 2)), Some(2));

    // Of the parts of a machine each takes the numbers that the machine has, as far as there is room in the ring.
    let mut parts = free_parts(rt.alloc(), &setup).expect(rt, "memory");
    let part = parts.get_mut(0).expect(rt, "part");
    is_refused(rt, part.give_back(number_of(rt, again.take(), 4)), Some(4));
    let small = on_two_cpus(rt, rt.alloc(), &[(0, true)]);
    let mut small_parts = free_parts(rt.alloc(), &small).expect(rt, "memory");
    let small_part = small_parts.get_mut(0).expect(rt, "part");
    is_refused(
        rt,
        small_part.give_back(number_of(rt, second.take(), 3)),
        Some(3),
    );
}

/// Takes all numbers of a home, asks that there are no more, and gives them back at another CPU, in the order in which they came.
fn all_go_and_come_back(rt: &impl Abort, parts: &mut Vec<FreePart>, home: usize, at: usize) {
    let cpus = parts.len();
    let part = parts.get_mut(home).expect(rt, "part");
    let first = number_of(rt, part.take(), home as u64);
    let second = number_of(rt, part.take(), home.saturating_add(cpus) as u64);
    let third = number_of(
        rt,
        part.take(),
        home.saturating_add(cpus).saturating_add(cpus) as u64,
    );
    is_number(rt, part.take(), None);
    let other = parts.get_mut(at).expect(rt, "part");
    is_refused(rt, other.give_back(first), None);
    is_refused(rt, other.give_back(second), None);
    is_refused(rt, other.give_back(third), None);
}

/// All numbers of each home go round: they are given back at each CPU in turn, and come home before the next turn.
fn numbers_go_round(rt: &impl Abort, alloc: Global, cpus: usize) {
    let setup = asleep_at_each(rt, alloc, cpus, 3);
    let mut parts = free_parts(alloc, &setup).expect(rt, "memory");
    assert!(rt; parts.len() == cpus);
    for at in 0..cpus {
        let part = parts.get_mut(at).expect(rt, "part");
        assert!(rt; part.cpu() == cpu(rt, at as u64));
        for home in 0..cpus {
            all_go_and_come_back(rt, &mut parts, home, at);
        }
    }
    for home in 0..cpus {
        all_go_and_come_back(rt, &mut parts, home, home);
    }
}

#[test]
fn each_cpu_gives_back_the_numbers_of_each_home(rt: HostRuntime) {
    for cpus in [1, 2, 8, 64] {
        numbers_go_round(&rt, rt.alloc(), cpus);
    }
}

/// How many numbers of a home come back while it takes none that has come.
const MANY: usize = 100;

/// Takes each number of a home, which is free there, and gives it back at another CPU. Then all are taken once more, and are as free as
/// before.
fn many_come_back(rt: &impl Abort, parts: &mut Vec<FreePart>, home: usize, at: usize) {
    let cpus = parts.len();
    for round in 0..MANY {
        let number = home.saturating_add(cpus.saturating_mul(round)) as u64;
        let part = parts.get_mut(home).expect(rt, "part");
        let taken = number_of(rt, part.take(), number);
        let other = parts.get_mut(at).expect(rt, "part");
        is_refused(rt, other.give_back(taken), None);
    }
    let part = parts.get_mut(home).expect(rt, "part");
    for round in 0..MANY {
        let number = home.saturating_add(cpus.saturating_mul(round)) as u64;
        is_number(rt, part.take(), Some(number));
    }
    is_number(rt, part.take(), None);
}

#[test]
fn all_numbers_that_came_back_meanwhile_are_handed_out(rt: HostRuntime) {
    for cpus in [2, 10] {
        let setup = asleep_at_each(&rt, rt.alloc(), cpus, MANY);
        let mut parts = free_parts(rt.alloc(), &setup).expect(&rt, "memory");
        for home in 0..cpus {
            many_come_back(&rt, &mut parts, home, (home + 1) % cpus);
        }
    }
}

#[test]
fn a_number_is_in_its_place_once(rt: HostRuntime) {
    let rt = &rt;
    let setup = on_two_cpus(rt, rt.alloc(), &HOMES);
    let mut free = FreeTasks::of_home(rt.alloc(), &setup, cpu(rt, 0)).expect(rt, "memory");
    let mut again = FreeTasks::of_home(rt.alloc(), &setup, cpu(rt, 0)).expect(rt, "memory");
    let places = TakenTasks::new(rt.alloc(), &setup).expect(rt, "memory");
    let two = task(rt, 2);
    assert!(rt; !places.has(two));
    is_number(rt, places.take(two), None);
    is_refused(rt, places.put(number_of(rt, free.take(), 2)), None);
    assert!(rt; places.has(two) && !places.has(task(rt, 4)));

    // One of another machine finds the place full, or no place.
    is_refused(rt, places.put(number_of(rt, again.take(), 2)), Some(2));
    let small = on_two_cpus(rt, rt.alloc(), &[(0, true)]);
    let one_place = TakenTasks::new(rt.alloc(), &small).expect(rt, "memory");
    is_refused(rt, one_place.put(number_of(rt, again.take(), 4)), Some(4));
    is_number(rt, one_place.take(task(rt, 4)), None);

    is_refused(rt, free.give_back(number_of(rt, places.take(two), 2)), None);
    assert!(rt; !places.has(two));
    is_number(rt, places.take(two), None);
}
