// Nodes on a source whose reads fail. Each call in words, and behind it the code, the two numbers and the bytes of its reply, all computed by an
// independent implementation.
pub(crate) const PLAN: &str = "version = 1
opening = \"none\"
[[source]]
samples = \"s0\"
num = 8
den = 1
rct = 4
apt = 257
startup = 1024
conditioner = \"hmac-sha-256\"
[[node]]
kind = \"rbg2\"
drbg = \"hmac-sha-256\"
interval = 2
source = 0
[[node]]
kind = \"rbg3-xor\"
drbg = \"hmac-sha-512\"
interval = 1
source = 0
[[node]]
kind = \"child\"
drbg = \"ctr-aes-256\"
interval = 1
parent = 0
";

pub(crate) const CALLS: &str = "instantiate 0 strength 256 string a6
11 0 0 -
generate 2 64 string 981f6ff46d7cfbf89c151baf14045553
4 2 0 -
generate 2 33 string 67
4 2 0 -
instantiate 1
11 0 0 -
status 0
0 0 0 00000000000000000000000000000000000000000000000000
generate 2 16 pr strength 128
4 2 0 -
reseed 1
4 1 0 -
instantiate 2
4 0 0 -
generate 0 40
4 0 0 -
generate 1 16 pr
4 1 0 -
generate 0 40 strength 128
4 0 0 -
generate 0 64 pr
4 0 0 -
generate 0 15 strength 257 string 225f0c479e74a9d1c78b3705cacf3d39
4 0 0 -
start 0
0 0 0 -
instantiate 0
12 1 0 -
generate 0 64 string 78
4 0 0 -
generate 0 40 pr strength 256
4 0 0 -
generate 1 33 string 5b25ffd0be8de67dd086f226edd2764f373eab14af24d7d4b4a9ae7dac90eb2444
4 1 0 -
generate 1 64
4 1 0 -
generate 0 32 pr strength 257 string e69e94c028dc29f9c08b5a7d7e85c2dd84f43cc6d05140c7ef559c93e14586f8b8
4 0 0 -
generate 2 16 string fe
4 2 0 -
generate 1 31 pr
4 1 0 -
generate 1 65 pr string 93
4 1 0 -
generate 1 64
4 1 0 -
generate 0 16 pr string 76ff0518d75d8557e94c02e195ed1efe
4 0 0 -
generate 0 31 string 5a
4 0 0 -
start 0
0 0 0 -
generate 3 1
1 3 3 -
generate 1 64 string 3540b46f039712fefd32ae225c965d3a42033de1b8f1346950472251b2136aa877
4 1 0 -
instantiate 1
12 2 0 -
instantiate 0 strength 128 string d83f4e9e7b980399890c28d98cfd3f30
0 0 0 -
generate 2 33 pr
4 2 0 -
generate 2 17
4 2 0 -
generate 3 40 strength 128
1 3 3 -
generate 1 32 string 485378248e382c3202cc15444bfbff12
4 1 0 -
status 0
0 0 0 01000000000000000100000000000000010000000000000000
generate 1 65 strength 128
4 1 0 -
generate 2 15
4 2 0 -
instantiate 0 string a68da20d12a0492909e0eab1e90f3868621ef4ca04e87210466447dc8ec38cc765
3 0 0 -
status 0
0 0 0 01000000000000000100000000000000010000000000000000
generate 2 65 string 94
4 2 0 -
start 0
12 3 0 -
generate 1 40 string ac
4 1 0 -
generate 0 40 pr
11 0 0 -
instantiate 2 strength 128
0 0 0 -
instantiate 1 strength 256
11 0 0 -
generate 2 1 pr string 67a9dbb0307c79faf92c72e9e0f39d53
11 0 0 -
reseed 1
4 1 0 -
generate 1 17 string ddabd1fad776381aadfcf0afef419553
4 1 0 -
generate 1 15
4 1 0 -
status 0
0 0 0 01000000000000000200000000000000010000000000000001
generate 3 32
1 3 3 -
generate 2 0 pr
11 0 0 -
generate 2 33
0 0 0 992bfc99974c28e233068f83f325357f532bc313aac99e0a2ecb239a7b7ef0253c
status 0
0 0 0 01000000000000000200000000000000010000000000000001
instantiate 1
11 0 0 -
generate 1 40 string 82
4 1 0 -
generate 1 16 strength 257 string a5d2b936090bda03cbb7bea84ddbf9ea82beef561a34041f0362500063b81b8022
4 1 0 -
generate 2 40 strength 192 string 57b9480daaa35aa8d4b19ad4e6063359e286a62f5cea84098ac5b1a3b5f4aa3721
0 0 0 4e0ad5f194f1cadc909f4d6eebd8e61c7d1e91b20ce08b6642a8f2ff41190b41d45ea2de09cc5ead
generate 2 0
11 0 0 -
generate 0 1 pr string 0996d94fb227198aa02ae8ec9aba2b43c9ef33ab2d80de976c9afcb95eb07166fe
11 0 0 -
generate 1 32 pr
4 1 0 -
instantiate 0 strength 128 string f662fe5eda5de99d258d27f79c54d8d4
3 0 0 -
generate 2 32 string d8e19df7fc6d84ebca0835b41b8fdfd4
11 0 0 -
generate 1 31 pr strength 128
4 1 0 -
instantiate 3 strength 128
1 3 3 -
uninstantiate 2
0 0 0 -
status 2
0 0 0 00000000000000000000000000000000020000000000000002
generate 3 31 pr strength 257
1 3 3 -
reseed 2 pr
4 2 0 -
instantiate 0 strength 256
3 0 0 -
generate 2 17 string 58
4 2 0 -
reseed 2 string 618d4993c6b3b694f131c98c151bec6024e3d9b598c5e9431387fa075c2790066e
4 2 0 -
status 0
0 0 0 01000000000000000300000000000000010000000000000002
generate 0 15 string bf
11 0 0 -
reseed 1 pr
4 1 0 -
generate 0 32 pr strength 128
11 0 0 -
generate 1 64 pr strength 256 string c2
4 1 0 -
generate 1 0
4 1 0 -
generate 0 15 strength 128
11 0 0 -
start 0
0 0 0 -
status 1
0 0 0 00000000000000000000000000000000000000000000000000
instantiate 2
0 0 0 -
status 0
0 0 0 01000000000000000200000000000000020000000000000003
generate 1 33
4 1 0 -
generate 2 15
0 0 0 eee2e8c7ff3e6399655e9928acfeae
generate 0 31
0 0 0 273e43b8b028c67b6130bf53664426bc3b49f9d16ca0c531fbd96ab71d6768
instantiate 2 strength 128
3 2 0 -
generate 2 40 strength 128
0 0 0 09c959c11c53253c1688077d8e757d163f1c1dbfb4d67de99a688ae7db961a3170e189402cba3354
generate 2 40 strength 192
0 0 0 8ae9497bf57bdda1f81575f24d47426fe32e6229858df60a47bcae0b5aaf5f2c987be1738001afe4
generate 2 40 string b1
12 4 0 -
generate 0 16 pr strength 256
0 0 0 3f60e2dfc9ea75ad36cc9f82ba7de799
generate 0 1
0 0 0 07
generate 0 16 strength 128
0 0 0 28274a1df622e6143e89e3a814611781
status 2
0 0 0 01000000000000000200000000000000050000000000000005
instantiate 3
1 3 3 -
generate 2 65 pr string e9
0 0 0 25903841d92d73f7a6d8ba190a46e880b3bf5fa923867a007c488c58d5facd92d4383f74fad3bb23fac01dbdf0cfa0ba9ddc4240f69037a9170d6c7cbc2e44af3a
status 0
0 0 0 0100000000000000020000000000000006000000000000000a
generate 0 15 string 2a847919672c042c52037a678c49e307
0 0 0 f7f9bcc192f31ac6f39ac38864c27b
generate 0 32 pr string 3a8a9096e86d0d6fe40b2b19bdcefcb7
0 0 0 bd05f36dd3e048da36803a28327c9f389d621d3120a0d0ebc578af46a49fe394
generate 2 32
0 0 0 2a118dbe8143cb661eb9d7da388f6070e456b345af9570ce77295fe29790acec
generate 2 15 string 50
0 0 0 2f58d9a54dd91e2404b345f80d2c65
generate 0 65 strength 257
5 257 256 -
uninstantiate 1
4 1 0 -
generate 1 40 strength 128 string f82773da34af0159d0c84205d86da80c
4 1 0 -
generate 1 32
4 1 0 -
generate 1 32 strength 128
4 1 0 -
instantiate 2
3 2 0 -
instantiate 2 string 7c
3 2 0 -
generate 0 32 pr
12 5 0 -
start 0
0 0 0 -
generate 0 15 string 15bbc20596653dc822eb8f33752ecd67bcbd46071fd80457205232d06ff0931d18
0 0 0 7c9f78c9674e6337f2da14835d1135
instantiate 2 strength 256
3 2 0 -
generate 0 32
0 0 0 053d990a73998eab3513faf05724a29e5b605700ab6a031bd6ea2da382a5c6a7
status 2
0 0 0 01000000000000000200000000000000080000000000000008
generate 0 64 pr strength 256 string 358cea5ee83cc666cda58221b95813a76469f3f7b8c533bc6c9c559e20a7a49b45
0 0 0 420cb2eacaf413cf80557f04c0f9f597aecfec1ef08b55d26254ab14b368ce6d931ee36371e29f63695c6a2acdf61f3901c4d44384ac3a88bf2573285c13a369
generate 0 40 pr strength 192
0 0 0 2129d01b837d61399dbcae2f02e5317f14ee0c45f910ca856aa77ac72d2930efd56e35afdeb40690
instantiate 2 strength 256
3 2 0 -
generate 3 33 string 2b
1 3 3 -
generate 0 31 pr
0 0 0 34997a21b802a3e6c8de6ee293a7292b0db4efe480ccb470dfcccacf882213
instantiate 0 strength 128
3 0 0 -
uninstantiate 2
0 0 0 -
generate 1 65 strength 257
4 1 0 -
generate 0 65 string 107780b07c2c4187306faa6ab1d4507c
0 0 0 007ce7bd4d873d4a9c5d7ddc5f7d7bc366c81a413df780ca56dde6a18a675f5602e906d60595572accfef4b2fea2e869327a1ad136d161218ad6a4fde4b29d91b4
generate 1 64 strength 192
4 1 0 -
generate 2 17 pr string 78
4 2 0 -
generate 2 64 pr
4 2 0 -
generate 0 17
0 0 0 5fa1b25a6e76d9a3f93b879e06b1acad79
generate 0 15 pr strength 256
0 0 0 b6d2edd121999b5b0708d67139198e
status 1
0 0 0 00000000000000000000000000000000000000000000000000
generate 1 31 pr strength 256
4 1 0 -
generate 2 65
4 2 0 -
generate 2 65
4 2 0 -
start 0
0 0 0 -
reseed 0 pr
12 6 0 -
reseed 0 pr
0 0 0 -
generate 3 65 strength 128
1 3 3 -
generate 2 65
4 2 0 -
generate 2 0 strength 257
4 2 0 -
generate 0 15 strength 257
5 257 256 -
generate 1 32 strength 256
4 1 0 -
generate 0 15 pr strength 256 string 5411227e7c8bcabcb5554c4305fe8e3c
0 0 0 e82886ab0e75c63b09faec49d97335
generate 0 15 string cca7f83540d12ebbbf7cd268d8c58bc34291b7e8565bea2a54d30202d742baf793
0 0 0 7ce102d75285b86bf60060eb625bdb
generate 0 40 string b0d3ce1d128f9fcb496f975a9488a886d56adac88028da32d119ef1b99bac573d8
0 0 0 d7fda4538a4c1d05018d2336aeaa18e3c16898a48c2494fbf11baf5aeda7326972a434dff5909175
generate 2 40
4 2 0 -
reseed 2
4 2 0 -
uninstantiate 2
4 2 0 -
generate 2 16 pr
4 2 0 -
start 0
0 0 0 -
instantiate 1
0 0 0 -
generate 1 0
0 0 0 -
generate 2 15 string b7
4 2 0 -
generate 1 16 strength 256
0 0 0 125237f00ec284729abb86bb4b4263ec
generate 2 15 strength 257 string bf
4 2 0 -
instantiate 2 strength 256
0 0 0 -
instantiate 2
3 2 0 -
generate 0 40 pr
0 0 0 bef49cedbd9c6ad9064247a1fb973cce9aeed9bcffe6e98deb7ffc88ef320148e7de35ff2278d0df
start 1
1 1 1 -
generate 0 1 string 89c236bad436c448e3ae44a6eae529b2fa86d6eb0c48f256819c9e7d4db27961eb
0 0 0 07
instantiate 2 strength 256 string 6e
3 2 0 -";

// What Status says at the end, and the counts of the sources.
pub(crate) const COUNTS: &str = "node 0: live 1 counter 3 seeds 18 gives 28
node 1: live 1 counter 2 seeds 2 gives 2
node 2: live 1 counter 1 seeds 9 gives 8
source 0: taken 7764 blocks 23
";
