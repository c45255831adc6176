// Plays the calls on one station that stand in tests/vectors/histories.in, a line for each; histories.out has what an independent
// reading of the rules answers. The host's part is free here: seats are spoilt, and stations and walk records made by hand.
#![tactic(auto)]

ghost use Rattle.std.specs.Prelude.{◌<◌, ◌≤◌, length};

use form::Refusal;
use station::Station;
use streams::Hex;
use units::Bytes;
use walk::{Shown, Walk};

// More than the file has, so that the program ends whatever it reads.
const COMMANDS: usize = 100000;

const NO_WALK: Walk = Walk {
    number: 0,
    position: 0,
    general: Bytes(0),
    vector: Bytes(0),
    overflow: Bytes(0),
};

// What is lent, the station and the walk records apart: the seat's room and the two images, and how many bytes of each.
#[derive(Drop)]
struct Desk {
    room: [u8; 600],
    registers: [u8; 4096],
    stack: [u8; 4096],
    seat_lent: usize,
    registers_lent: usize,
    stack_lent: usize,
}

impl Desk {
    fn seat(&self) -> Option<&[u8]> {
        self.room.get(..self.seat_lent)
    }

    fn images(&self) -> Option<(&[u8], &[u8])> {
        let registers = self.registers.get(..self.registers_lent)?;
        let stack = self.stack.get(..self.stack_lent)?;
        Some((registers, stack))
    }
}

// ---- what is printed

// The number, and the type that breaks the rule of 6 or 7, which is 0 for the others; both are 0 for an accepted call.
fn print_answer(rt: &impl Print, call: &str, answer: Result<(), Refusal>) {
    let _ = match answer {
        Ok(()) => print!(rt; "{call} 0 0"),
        Err(refusal) => print!(rt; "{call} {} {}", refusal.number, refusal.ty),
    };
}

fn print_station(rt: &impl Print, station: Station) {
    let _ = print!(rt;
        "station {} {} {}",
        u8::from(station.attached),
        station.length.0,
        station.number
    );
}

// The record in a slot, at the end of a line.
fn print_walk(rt: &impl Print, walk: Walk) {
    let _ = println!(rt;
        "walk {} {} {} {} {}",
        walk.number, walk.position, walk.general.0, walk.vector.0, walk.overflow.0
    );
}

// A byte more, modulo 65,521.
fn with_byte(passed: u64, byte: u8) -> u64
    requires { passed < 65521 }
    ensures { result < 65521 }
{
    (passed + u64::from(byte)) % 65521
}

// The sum of (index + 1) times byte, modulo 65,521: from the end on, each byte counts once more at every step.
fn checksum(room: &[u8]) -> u64
    ensures { result < 65521 }
{
    let mut passed = 0;
    let mut sum = 0;
    for &byte in room.iter().rev() {
        passed = with_byte(passed, byte);
        sum = (sum + passed) % 65521;
    }
    sum
}

fn print_seat(rt: &impl Print, host: &Host, desk: &Desk) {
    let _ = print!(rt; " ");
    print_station(rt, host.station);
    let _ = println!(rt; " seat {}", checksum(&desk.room));
}

// ---- what is read

// Numbers of two, four and eight bytes, little-endian; what is missing at the end of the input is 0.
fn read_word(rt: &impl Input) -> usize
    ensures { result < 65536 }
{
    let mut bytes = [0u8; 2];
    streams::read_full(rt, &mut bytes);
    usize::from(u16::from_le_bytes(bytes))
}

fn read_half(rt: &impl Input) -> u32 {
    let mut bytes = [0u8; 4];
    streams::read_full(rt, &mut bytes);
    u32::from_le_bytes(bytes)
}

fn read_whole(rt: &impl Input) -> usize {
    let mut bytes = [0u8; 8];
    streams::read_full(rt, &mut bytes);
    usize::from_le_bytes(bytes)
}

fn read_slot(rt: &impl Input) -> usize {
    usize::from(streams::read_byte(rt))
}

// A part with its length before it, into the start of room: how many bytes that is.
fn read_sized(rt: &impl Input, room: &mut [u8]) -> usize
    ensures { result ≤ length room.new }
{
    streams::read_part(rt, room).unwrap_or(0)
}

// ---- the host

// The station, and four walk records.
#[derive(Drop)]
struct Host {
    station: Station,
    walks: [Walk; 4],
}

impl Host {
    fn walk(&self, slot: usize) -> Walk {
        self.walks.get(slot).copied().unwrap_or(NO_WALK)
    }

    fn keep(&mut self, slot: usize, walk: Walk) {
        if let Some(place) = self.walks.get_mut(slot) {
            *place = walk;
        }
    }

    fn print_slot(&self, rt: &impl Print, slot: usize) {
        print_walk(rt, self.walk(slot));
    }

    fn make_station(&mut self, rt: &(impl Print + Input)) {
        let attached = streams::read_byte(rt) == 1;
        let length = Bytes(read_word(rt));
        let number = read_half(rt);
        self.station = Station {
            attached,
            length,
            number,
        };
        print_station(rt, self.station);
        let _ = println!(rt);
    }

    fn make_walk(&mut self, rt: &(impl Print + Input)) {
        let slot = read_slot(rt);
        let number = read_half(rt);
        let position = read_whole(rt);
        let general = Bytes(read_whole(rt));
        let vector = Bytes(read_whole(rt));
        let overflow = Bytes(read_whole(rt));
        let walk = Walk {
            number,
            position,
            general,
            vector,
            overflow,
        };
        self.keep(slot, walk);
        self.print_slot(rt, slot);
    }

    // ---- the calls on the seat

    fn attach(&mut self, rt: &(impl Print + Input), desk: &mut Desk) {
        let Some(seat) = desk.room.get_mut(..desk.seat_lent) else {
            return;
        };
        let mut space = [0u8; 4096];
        let n = read_sized(rt, &mut space);
        let answer = station::attach(&mut self.station, seat, &space[..n]);
        print_answer(rt, "attach", answer);
        print_seat(rt, self, desk);
    }

    fn detach(&mut self, rt: &impl Print, desk: &mut Desk) {
        let Some(seat) = desk.room.get_mut(..desk.seat_lent) else {
            return;
        };
        let answer = station::detach(&mut self.station, seat);
        print_answer(rt, "detach", answer);
        print_seat(rt, self, desk);
    }

    fn change(&mut self, rt: &(impl Print + Input), desk: &mut Desk) {
        let Some(seat) = desk.room.get_mut(..desk.seat_lent) else {
            return;
        };
        let mut space = [0u8; 4096];
        let n = read_sized(rt, &mut space);
        let answer = station::change(&mut self.station, seat, &space[..n]);
        print_answer(rt, "change", answer);
        print_seat(rt, self, desk);
    }

    // ---- open, step, all the rest and show: they leave the seat and the images

    fn open(&mut self, rt: &(impl Print + Input), seat: &[u8]) {
        let slot = read_slot(rt);
        let answer = walk::open_walk(self.station, seat);
        if let Ok(walk) = answer {
            self.keep(slot, walk);
        }
        print_answer(rt, "open", answer.map(|_| ()));
        let _ = print!(rt; " ");
        self.print_slot(rt, slot);
    }

    fn step(&mut self, rt: &(impl Print + Input), seat: &[u8], registers: &[u8], stack: &[u8]) {
        let mut space = [0u8; 4096];
        let slot = read_slot(rt);
        let asked = streams::read_byte(rt);
        let Some(out) = space.get_mut(..read_word(rt)) else {
            return;
        };
        let mut walk = self.walk(slot);
        out.fill(0xEE);
        let answer = walk::step(&self.station, seat, &mut walk, registers, stack, asked, out);
        self.keep(slot, walk);
        print_answer(rt, "step", answer);
        let _ = print!(rt; " out{} ", Hex(out));
        self.print_slot(rt, slot);
    }

    fn finish(&mut self, rt: &(impl Print + Input), seat: &[u8], registers: &[u8], stack: &[u8]) {
        let mut types = [0u8; 4096];
        let mut space = [0u8; 4096];
        let slot = read_slot(rt);
        let count = read_sized(rt, &mut types);
        let Some(out) = space.get_mut(..read_word(rt)) else {
            return;
        };
        let asked = &types[..count];
        let mut walk = self.walk(slot);
        out.fill(0xEE);
        let answer = finishing::finish_walk(
            &self.station,
            seat,
            &mut walk,
            registers,
            stack,
            asked,
            out,
        );
        self.keep(slot, walk);
        print_answer(rt, "finish", answer);
        let _ = print!(rt; " out{} ", Hex(out));
        self.print_slot(rt, slot);
    }

    // Where the part begins, and the bytes of the part that is handed out: they are those that stand there only where it begins there.
    fn show(&self, rt: &(impl Print + Input), seat: &[u8], registers: &[u8], stack: &[u8]) {
        let walk = self.walk(read_slot(rt));
        let asked = streams::read_byte(rt);
        let part = Hex(walk::show(self.station, seat, walk, registers, stack, asked));
        let _ = match walk::shown_at(self.station, seat, walk, registers, stack, asked) {
            Ok(Some(Shown::Registers(place))) => {
                println!(rt; "show registers {} part{part}", place.offset.0)
            }
            Ok(Some(Shown::Stack(place))) => {
                println!(rt; "show stack {} part{part}", place.offset.0)
            }
            Ok(None) | Err(_) => println!(rt; "show none"),
        };
    }

    fn show_number(&self, rt: &(impl Print + Input), seat: &[u8], registers: &[u8], stack: &[u8]) {
        let walk = self.walk(read_slot(rt));
        let asked = streams::read_byte(rt);
        let answer = walk::show_number(self.station, seat, walk, registers, stack, asked);
        print_answer(rt, "number", answer);
        let _ = println!(rt);
    }

    fn look(&mut self, rt: &(impl Print + Input), command: u8, desk: &Desk) {
        let (Some(seat), Some((registers, stack))) = (desk.seat(), desk.images()) else {
            return;
        };
        match command {
            9 => self.open(rt, seat),
            10 => self.step(rt, seat, registers, stack),
            11 => self.show(rt, seat, registers, stack),
            12 => self.show_number(rt, seat, registers, stack),
            17 => self.finish(rt, seat, registers, stack),
            _ => {}
        }
    }
}

// ---- the host's own part

fn new_host() -> Host {
    Host {
        station: station::new_station(),
        walks: [NO_WALK; 4],
    }
}

fn reset(rt: &impl Print, host: &mut Host, desk: &mut Desk) {
    *host = new_host();
    desk.room.fill(0);
    desk.seat_lent = 586;
    desk.registers_lent = 0;
    desk.stack_lent = 0;
    let _ = println!(rt; "reset");
}

fn lend_seat(rt: &(impl Print + Input), desk: &mut Desk) {
    desk.seat_lent = read_word(rt);
    let _ = println!(rt; "seat length {}", desk.seat_lent);
}

fn spoil(rt: &(impl Print + Input), desk: &mut Desk) {
    let index = read_word(rt);
    let byte = streams::read_byte(rt);
    if let Some(place) = desk.room.get_mut(index) {
        *place = byte;
    }
    let _ = println!(rt; "spoilt seat {}", checksum(&desk.room));
}

fn fill_seat(rt: &(impl Print + Input), desk: &mut Desk) {
    desk.room.fill(streams::read_byte(rt));
    let _ = println!(rt; "filled seat {}", checksum(&desk.room));
}

fn set_registers(rt: &(impl Print + Input), desk: &mut Desk) {
    desk.registers_lent = read_sized(rt, &mut desk.registers);
    let _ = println!(rt; "registers {}", desk.registers_lent);
}

fn set_stack(rt: &(impl Print + Input), desk: &mut Desk) {
    desk.stack_lent = read_sized(rt, &mut desk.stack);
    let _ = println!(rt; "stack {}", desk.stack_lent);
}

// One call, by the number that it has in the file.
fn play(rt: &(impl Print + Input), command: u8, host: &mut Host, desk: &mut Desk) {
    match command {
        1 => reset(rt, host, desk),
        2 => lend_seat(rt, desk),
        3 => spoil(rt, desk),
        4 => host.make_station(rt),
        5 => set_registers(rt, desk),
        6 => set_stack(rt, desk),
        7 => host.attach(rt, desk),
        8 => host.detach(rt, desk),
        13 => host.make_walk(rt),
        14 => fill_seat(rt, desk),
        16 => host.change(rt, desk),
        _ => host.look(rt, command, desk),
    }
}

fn main(rt: HostRuntime) {
    let mut host = new_host();
    let mut desk = Desk {
        room: [0; 600],
        registers: [0; 4096],
        stack: [0; 4096],
        seat_lent: 586,
        registers_lent: 0,
        stack_lent: 0,
    };
    for _ in 0..COMMANDS {
        let command = streams::read_byte(&rt);
        if command == 0 {
            return;
        }
        play(&rt, command, &mut host, &mut desk);
    }
}
