// Two Leviton keypads on one house: each sends groups with a reference of its own, 4 and 9.
use crate::show::print;
use crate::tables::Room;

// Into group 1: lamp A1 and appliance A4 relative to 4, lamp A2 relative to 9, lamp A3 absolute. Then all is dark.
fn join(room: &mut Room) {
    room.extended(0, 0x31, 0x14);
    room.extended(0, 0x30, 0x64);
    room.extended(1, 0x31, 0x28);
    room.extended(1, 0x30, 0x69);
    room.extended(2, 0x32, 0x4A);
    room.extended(3, 0x31, 0x05);
    room.extended(3, 0x30, 0x74);
    room.extended(0, 0x34, 0x00);
}

// Each keypad executes; one dims, the other brightens, the first puts off; then an execution with no reference.
fn call(room: &mut Room) {
    room.extended(0, 0x36, 0x64);
    room.extended(0, 0x36, 0x69);
    room.extended(0, 0x3C, 0x64);
    room.extended(0, 0x3C, 0x79);
    room.extended(0, 0x36, 0x74);
    room.extended(0, 0x36, 0x4F);
}

// A1 joins again, absolute, and A3 again, relative to 9: one is then reached by the second keypad, and the other by no absolute command. A2 is asked
// for its status in the group, in a form that is carried and in one that is not. All leave, whatever their references.
fn join_again(room: &mut Room) {
    room.extended(0, 0x32, 0x45);
    room.extended(0, 0x36, 0x69);
    room.extended(2, 0x30, 0x69);
    room.extended(0, 0x36, 0x50);
    room.extended(1, 0x37, 0x79);
    room.extended(1, 0x37, 0x69);
    room.extended(0, 0x35, 0xF2);
    room.extended(0, 0x36, 0x69);
}

pub(crate) fn two_keypads() {
    print(b"Two keypads, a reference each\n");
    let mut room = Room::new();
    join(&mut room);
    call(&mut room);
    join_again(&mut room);
    room.refer(16);
    room.extended(0, 0x36, 0x25);
    room.refer(17);
    room.extended(0, 0x36, 0x25);
}
