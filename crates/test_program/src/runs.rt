//! What the program does on a machine in memory, and where it finds no memory; and the laws at concrete types. What it does beside devices
//! that fail, other programs and sockets is shown on the built one by the scripts of `tests/`. Expected bytes are those of the desk's
//! formats, written out.
mod faults;
mod laws;
mod machine_in_memory;
