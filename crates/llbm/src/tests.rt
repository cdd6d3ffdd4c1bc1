//! Tests what the program does on devices that fail or read a byte at a time, and calls of the commands that no command line shows. What the program prints is
//! tested by the transcripts of the repository's folder `tests`.

mod calls;
mod definitions;
mod devices;
mod failing;
mod reading;
mod runs;
mod sources;
mod words;
