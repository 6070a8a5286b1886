// What can happen at all offices and on the lines between them, and what is promised of it. This crate has definitions only,
// in specs/: World and Truth say what happens and what is true, Promise what is promised; Way is the invariant on parcels, and
// Beside and Told have what is promised besides.
#![tactic(auto)]
