// Scheduling on one machine: est, lct, p, ect, overloads, the edge-finding rule, schedules, reasons and checks. Definitions and theorems, no code.
#![tactic(auto)]
