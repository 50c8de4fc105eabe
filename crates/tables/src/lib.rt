// METHOD 3.8, 4, 5.8 and 6: what pass B replaces, the tables B1 to D13, that no weighing empties a group, the exact working and how near it is, as
// definitions and laws. There is no code here.
#![tactic(auto)]
