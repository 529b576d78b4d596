// No code: what a log with named columns loads as, by its lines, their cells and the header's columns (specs/); that the text of a grid of cells
// loads as the grid's table, and a column-shuffled copy, or one with the stamps as clock time, as the same table (proofs/).
#![tactic(auto)]
