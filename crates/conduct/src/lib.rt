// How each end conducts itself under any calls, in any order and with any inputs (rules E3, E5, D1 to D19, M1 to M19, K6). Theorems only.
#![tactic(auto)]
