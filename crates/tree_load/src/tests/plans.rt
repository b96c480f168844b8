// Plans, and the counts that an independent implementation computes after runs over them.

// Two nodes on a source each, and a child of each.
pub(crate) const PAIRS: &str = "\
version = 1\n\
[[source]]\n\
samples = \"ramp\"\n\
num = 8\n\
den = 1\n\
rct = 4\n\
apt = 257\n\
[[source]]\n\
samples = \"ramp\"\n\
num = 8\n\
den = 1\n\
rct = 4\n\
apt = 257\n\
[[node]]\n\
kind = \"rbg2\"\n\
drbg = \"hmac-sha-256\"\n\
interval = 50\n\
source = 0\n\
[[node]]\n\
kind = \"rbg2\"\n\
drbg = \"hmac-sha-256\"\n\
interval = 50\n\
source = 1\n\
[[node]]\n\
kind = \"child\"\n\
drbg = \"hmac-sha-256\"\n\
interval = 100\n\
parent = 0\n\
[[node]]\n\
kind = \"child\"\n\
drbg = \"hmac-sha-256\"\n\
interval = 100\n\
parent = 1\n";

// After no call, and after 2,000 of seed 1.
pub(crate) const PAIRS_OPENED: &str = "\
node 0: live 1 counter 2 seeds 1 gives 1\n\
node 1: live 1 counter 2 seeds 1 gives 1\n\
node 2: live 1 counter 1 seeds 1 gives 0\n\
node 3: live 1 counter 1 seeds 1 gives 0\n\
source 0: taken 1104 blocks 2\n\
source 1: taken 1104 blocks 2\n";

pub(crate) const PAIRS_COUNTS: &str = "\
node 0: live 1 counter 28 seeds 10 gives 477\n\
node 1: live 1 counter 28 seeds 11 gives 527\n\
node 2: live 1 counter 99 seeds 5 gives 498\n\
node 3: live 1 counter 10 seeds 6 gives 509\n\
source 0: taken 1464 blocks 11\n\
source 1: taken 1504 blocks 12\n";

// After 20,000 calls of seed 1.
pub(crate) const PAIRS_LATER: &str = "\
node 0: live 1 counter 47 seeds 102 gives 5096\n\
node 1: live 1 counter 29 seeds 100 gives 4978\n\
node 2: live 1 counter 31 seeds 51 gives 5030\n\
node 3: live 1 counter 98 seeds 50 gives 4997\n\
source 0: taken 5144 blocks 103\n\
source 1: taken 5064 blocks 101\n";

// A node on a source and its child, none of which is instantiated.
pub(crate) const CLOSED: &str = "\
version = 1\n\
opening = \"none\"\n\
[[source]]\n\
samples = \"ramp\"\n\
num = 8\n\
den = 1\n\
rct = 4\n\
apt = 257\n\
[[node]]\n\
kind = \"rbg2\"\n\
drbg = \"hmac-sha-256\"\n\
interval = 2\n\
source = 0\n\
[[node]]\n\
kind = \"child\"\n\
drbg = \"ctr-aes-256\"\n\
interval = 1\n\
parent = 0\n";

// After 10 calls of seed 1, all of which are refused.
pub(crate) const CLOSED_COUNTS: &str = "\
node 0: live 0 counter 0 seeds 0 gives 0\n\
node 1: live 0 counter 0 seeds 0 gives 0\n\
source 0: taken 0 blocks 0\n";

// Each kind of DRBG and each construction on a source, in seven nodes.
pub(crate) const KINDS: &str = "\
version = 1\n\
[[source]]\n\
samples = \"ramp\"\n\
num = 8\n\
den = 1\n\
rct = 4\n\
apt = 257\n\
[[source]]\n\
samples = \"ramp\"\n\
num = 8\n\
den = 1\n\
rct = 4\n\
apt = 257\n\
[[node]]\n\
kind = \"rbg2\"\n\
drbg = \"hmac-sha-512\"\n\
interval = 7\n\
source = 0\n\
[[node]]\n\
kind = \"rbg3-xor\"\n\
drbg = \"ctr-aes-256\"\n\
interval = 5\n\
source = 1\n\
[[node]]\n\
kind = \"child\"\n\
drbg = \"ctr-aes-192\"\n\
interval = 3\n\
parent = 0\n\
[[node]]\n\
kind = \"child\"\n\
drbg = \"hmac-sha-384\"\n\
interval = 2\n\
parent = 1\n\
[[node]]\n\
kind = \"child\"\n\
drbg = \"ctr-aes-128\"\n\
interval = 1\n\
parent = 2\n\
[[node]]\n\
kind = \"rbg3-rs\"\n\
drbg = \"hmac-sha-256\"\n\
interval = 9\n\
source = 0\n\
[[node]]\n\
kind = \"child\"\n\
drbg = \"hmac-sha-256\"\n\
interval = 4\n\
parent = 5\n";

// After 150 calls of seed 7.
pub(crate) const KINDS_COUNTS: &str = "\
node 0: live 1 counter 2 seeds 6 gives 36\n\
node 1: live 1 counter 5 seeds 7 gives 34\n\
node 2: live 1 counter 3 seeds 13 gives 38\n\
node 3: live 1 counter 3 seeds 10 gives 20\n\
node 4: live 1 counter 2 seeds 20 gives 20\n\
node 5: live 1 counter 2 seeds 49 gives 48\n\
node 6: live 1 counter 2 seeds 5 gives 17\n\
source 0: taken 5224 blocks 105\n\
source 1: taken 3304 blocks 57\n";

// After 20,000 calls of seed 5.
pub(crate) const KINDS_LATER: &str = "\
node 0: live 1 counter 7 seeds 682 gives 4773\n\
node 1: live 1 counter 3 seeds 842 gives 4207\n\
node 2: live 1 counter 4 seeds 1921 gives 5763\n\
node 3: live 1 counter 3 seeds 1412 gives 2824\n\
node 4: live 1 counter 2 seeds 2842 gives 2842\n\
node 5: live 1 counter 2 seeds 4947 gives 4946\n\
node 6: live 1 counter 3 seeds 735 gives 2938\n\
source 0: taken 424104 blocks 10577\n\
source 1: taken 258024 blocks 6425\n";

// An RBG1 that is soon exhausted, a child of it, and a node on a source.
pub(crate) const ENDING: &str = "\
version = 1\n\
[[source]]\n\
samples = \"ramp\"\n\
num = 8\n\
den = 1\n\
rct = 4\n\
apt = 257\n\
[[node]]\n\
kind = \"rbg1\"\n\
drbg = \"hmac-sha-256\"\n\
interval = 3\n\
seed = \"s48\"\n\
[[node]]\n\
kind = \"child\"\n\
drbg = \"ctr-aes-128\"\n\
interval = 2\n\
parent = 0\n\
[[node]]\n\
kind = \"rbg2\"\n\
drbg = \"hmac-sha-256\"\n\
interval = 4\n\
source = 0\n";

// After 40 calls of seed 3, 21 of which are refused.
pub(crate) const ENDING_COUNTS: &str = "\
node 0: live 1 counter 4 seeds 1 gives 3\n\
node 1: live 1 counter 3 seeds 2 gives 4\n\
node 2: live 1 counter 3 seeds 4 gives 14\n\
source 0: taken 1224 blocks 5\n";
