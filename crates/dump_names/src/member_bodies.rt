// Names under 1.0 and 1.2, ISO's standards and member bodies: PKCS, ANSI X9, Apple, GOST, Korea and China.
pub const MEMBER_BODIES: &str = "\
1.0.10118.3.0.55 whirlpool ISO/IEC 10118-3
1.0.9797.3.4 gmac ISO/IEC 9797-3
1.2.156.10197.1 sm-scheme GM/T 0006
1.2.156.10197.1.104.1 sm4-ecb GM/T 0006
1.2.156.10197.1.104.2 sm4-cbc GM/T 0006
1.2.156.10197.1.104.3 sm4-ofb GM/T 0006
1.2.156.10197.1.104.4 sm4-cfb GM/T 0006
1.2.156.10197.1.104.5 sm4-cfb1 GM/T 0006
1.2.156.10197.1.104.6 sm4-cfb8 GM/T 0006
1.2.156.10197.1.104.7 sm4-ctr GM/T 0006
1.2.156.10197.1.301 sm2 GM/T 0006
1.2.156.10197.1.401 sm3 GM/T 0006
1.2.156.10197.1.501 SM2-with-SM3 GM/T 0006
1.2.156.10197.1.504 sm3WithRSAEncryption GM/T 0006
1.2.392.200011.61.1.1.1.2 camellia-128-cbc RFC 3657
1.2.392.200011.61.1.1.1.3 camellia-192-cbc RFC 3657
1.2.392.200011.61.1.1.1.4 camellia-256-cbc RFC 3657
1.2.392.200011.61.1.1.3.2 id-camellia128-wrap RFC 3657
1.2.392.200011.61.1.1.3.3 id-camellia192-wrap RFC 3657
1.2.392.200011.61.1.1.3.4 id-camellia256-wrap RFC 3657
1.2.410.200004.1.3 seed-ecb RFC 4269
1.2.410.200004.1.4 seed-cbc RFC 4269
1.2.410.200004.1.5 seed-cfb RFC 4269
1.2.410.200004.1.6 seed-ofb RFC 4269
1.2.410.200046.1.1.1 aria-128-ecb RFC 5794
1.2.410.200046.1.1.10 aria-192-ctr RFC 5794
1.2.410.200046.1.1.11 aria-256-ecb RFC 5794
1.2.410.200046.1.1.12 aria-256-cbc RFC 5794
1.2.410.200046.1.1.13 aria-256-cfb RFC 5794
1.2.410.200046.1.1.14 aria-256-ofb RFC 5794
1.2.410.200046.1.1.15 aria-256-ctr RFC 5794
1.2.410.200046.1.1.2 aria-128-cbc RFC 5794
1.2.410.200046.1.1.3 aria-128-cfb RFC 5794
1.2.410.200046.1.1.34 aria-128-gcm RFC 5794
1.2.410.200046.1.1.35 aria-192-gcm RFC 5794
1.2.410.200046.1.1.36 aria-256-gcm RFC 5794
1.2.410.200046.1.1.37 aria-128-ccm RFC 5794
1.2.410.200046.1.1.38 aria-192-ccm RFC 5794
1.2.410.200046.1.1.39 aria-256-ccm RFC 5794
1.2.410.200046.1.1.4 aria-128-ofb RFC 5794
1.2.410.200046.1.1.5 aria-128-ctr RFC 5794
1.2.410.200046.1.1.6 aria-192-ecb RFC 5794
1.2.410.200046.1.1.7 aria-192-cbc RFC 5794
1.2.410.200046.1.1.8 aria-192-cfb RFC 5794
1.2.410.200046.1.1.9 aria-192-ofb RFC 5794
1.2.643.100.1 OGRN RFC 9215
1.2.643.100.111 subjectSignTool RFC 9215
1.2.643.100.112 issuerSignTool RFC 9215
1.2.643.100.113 classSignTool RFC 9215
1.2.643.100.113.1 classSignToolKC1 RFC 9215
1.2.643.100.113.2 classSignToolKC2 RFC 9215
1.2.643.100.113.3 classSignToolKC3 RFC 9215
1.2.643.100.113.4 classSignToolKB1 RFC 9215
1.2.643.100.113.5 classSignToolKB2 RFC 9215
1.2.643.100.113.6 classSignToolKA1 RFC 9215
1.2.643.100.3 SNILS RFC 9215
1.2.643.100.5 OGRNIP RFC 9215
1.2.643.2.2.10 id-HMACGostR3411-94 RFC 4357
1.2.643.2.2.14.0 id-Gost28147-89-None-KeyMeshing RFC 4357
1.2.643.2.2.14.1 id-Gost28147-89-CryptoPro-KeyMeshing RFC 4357
1.2.643.2.2.19 gost2001 RFC 4357
1.2.643.2.2.20 gost94 RFC 4357
1.2.643.2.2.20.1 id-GostR3410-94-a RFC 4357
1.2.643.2.2.20.2 id-GostR3410-94-aBis RFC 4357
1.2.643.2.2.20.3 id-GostR3410-94-b RFC 4357
1.2.643.2.2.20.4 id-GostR3410-94-bBis RFC 4357
1.2.643.2.2.21 gost89 RFC 4357
1.2.643.2.2.22 gost-mac RFC 4357
1.2.643.2.2.23 prf-gostr3411-94 RFC 4357
1.2.643.2.2.3 id-GostR3411-94-with-GostR3410-2001 RFC 4357
1.2.643.2.2.30.0 id-GostR3411-94-TestParamSet RFC 4357
1.2.643.2.2.30.1 id-GostR3411-94-CryptoProParamSet RFC 4357
1.2.643.2.2.31.0 id-Gost28147-89-TestParamSet RFC 4357
1.2.643.2.2.31.1 id-Gost28147-89-CryptoPro-A-ParamSet RFC 4357
1.2.643.2.2.31.2 id-Gost28147-89-CryptoPro-B-ParamSet RFC 4357
1.2.643.2.2.31.3 id-Gost28147-89-CryptoPro-C-ParamSet RFC 4357
1.2.643.2.2.31.4 id-Gost28147-89-CryptoPro-D-ParamSet RFC 4357
1.2.643.2.2.31.5 id-Gost28147-89-CryptoPro-Oscar-1-1-ParamSet RFC 4357
1.2.643.2.2.31.6 id-Gost28147-89-CryptoPro-Oscar-1-0-ParamSet RFC 4357
1.2.643.2.2.31.7 id-Gost28147-89-CryptoPro-RIC-1-ParamSet RFC 4357
1.2.643.2.2.32.0 id-GostR3410-94-TestParamSet RFC 4357
1.2.643.2.2.32.2 id-GostR3410-94-CryptoPro-A-ParamSet RFC 4357
1.2.643.2.2.32.3 id-GostR3410-94-CryptoPro-B-ParamSet RFC 4357
1.2.643.2.2.32.4 id-GostR3410-94-CryptoPro-C-ParamSet RFC 4357
1.2.643.2.2.32.5 id-GostR3410-94-CryptoPro-D-ParamSet RFC 4357
1.2.643.2.2.33.1 id-GostR3410-94-CryptoPro-XchA-ParamSet RFC 4357
1.2.643.2.2.33.2 id-GostR3410-94-CryptoPro-XchB-ParamSet RFC 4357
1.2.643.2.2.33.3 id-GostR3410-94-CryptoPro-XchC-ParamSet RFC 4357
1.2.643.2.2.35.0 id-GostR3410-2001-TestParamSet RFC 4357
1.2.643.2.2.35.1 id-GostR3410-2001-CryptoPro-A-ParamSet RFC 4357
1.2.643.2.2.35.2 id-GostR3410-2001-CryptoPro-B-ParamSet RFC 4357
1.2.643.2.2.35.3 id-GostR3410-2001-CryptoPro-C-ParamSet RFC 4357
1.2.643.2.2.36.0 id-GostR3410-2001-CryptoPro-XchA-ParamSet RFC 4357
1.2.643.2.2.36.1 id-GostR3410-2001-CryptoPro-XchB-ParamSet RFC 4357
1.2.643.2.2.4 id-GostR3411-94-with-GostR3410-94 RFC 4357
1.2.643.2.2.9 md_gost94 RFC 4357
1.2.643.2.2.98 id-GostR3410-2001DH RFC 4357
1.2.643.2.2.99 id-GostR3410-94DH RFC 4357
1.2.643.2.9.1.3.3 id-GostR3411-94-with-GostR3410-94-cc Cryptocom
1.2.643.2.9.1.3.4 id-GostR3411-94-with-GostR3410-2001-cc Cryptocom
1.2.643.2.9.1.5.3 gost94cc Cryptocom
1.2.643.2.9.1.5.4 gost2001cc Cryptocom
1.2.643.2.9.1.6.1 id-Gost28147-89-cc Cryptocom
1.2.643.2.9.1.8.1 id-GostR3410-2001-ParamSet-cc Cryptocom
1.2.643.3.131.1.1 INN RFC 9215
1.2.643.7.1 id-tc26 RFC 9058
1.2.643.7.1.1 id-tc26-algorithms RFC 9058
1.2.643.7.1.1.1 id-tc26-sign RFC 9058
1.2.643.7.1.1.1.1 gost2012_256 RFC 9058
1.2.643.7.1.1.1.2 gost2012_512 RFC 9058
1.2.643.7.1.1.2 id-tc26-digest RFC 9058
1.2.643.7.1.1.2.2 md_gost12_256 RFC 9058
1.2.643.7.1.1.2.3 md_gost12_512 RFC 9058
1.2.643.7.1.1.3 id-tc26-signwithdigest RFC 9058
1.2.643.7.1.1.3.2 id-tc26-signwithdigest-gost3410-2012-256 RFC 9058
1.2.643.7.1.1.3.3 id-tc26-signwithdigest-gost3410-2012-512 RFC 9058
1.2.643.7.1.1.4 id-tc26-mac RFC 9058
1.2.643.7.1.1.4.1 id-tc26-hmac-gost-3411-2012-256 RFC 9058
1.2.643.7.1.1.4.2 id-tc26-hmac-gost-3411-2012-512 RFC 9058
1.2.643.7.1.1.5 id-tc26-cipher RFC 9058
1.2.643.7.1.1.5.1 id-tc26-cipher-gostr3412-2015-magma RFC 9058
1.2.643.7.1.1.5.1.1 magma-ctr-acpkm RFC 9058
1.2.643.7.1.1.5.1.2 magma-ctr-acpkm-omac RFC 9058
1.2.643.7.1.1.5.2 id-tc26-cipher-gostr3412-2015-kuznyechik RFC 9058
1.2.643.7.1.1.5.2.1 kuznyechik-ctr-acpkm RFC 9058
1.2.643.7.1.1.5.2.2 kuznyechik-ctr-acpkm-omac RFC 9058
1.2.643.7.1.1.6 id-tc26-agreement RFC 9058
1.2.643.7.1.1.6.1 id-tc26-agreement-gost-3410-2012-256 RFC 9058
1.2.643.7.1.1.6.2 id-tc26-agreement-gost-3410-2012-512 RFC 9058
1.2.643.7.1.1.7 id-tc26-wrap RFC 9058
1.2.643.7.1.1.7.1 id-tc26-wrap-gostr3412-2015-magma RFC 9058
1.2.643.7.1.1.7.1.1 magma-kexp15 RFC 9058
1.2.643.7.1.1.7.2 id-tc26-wrap-gostr3412-2015-kuznyechik RFC 9058
1.2.643.7.1.1.7.2.1 kuznyechik-kexp15 RFC 9058
1.2.643.7.1.2 id-tc26-constants RFC 9058
1.2.643.7.1.2.1 id-tc26-sign-constants RFC 9058
1.2.643.7.1.2.1.1 id-tc26-gost-3410-2012-256-constants RFC 9058
1.2.643.7.1.2.1.1.1 id-tc26-gost-3410-2012-256-paramSetA RFC 9058
1.2.643.7.1.2.1.1.2 id-tc26-gost-3410-2012-256-paramSetB RFC 9058
1.2.643.7.1.2.1.1.3 id-tc26-gost-3410-2012-256-paramSetC RFC 9058
1.2.643.7.1.2.1.1.4 id-tc26-gost-3410-2012-256-paramSetD RFC 9058
1.2.643.7.1.2.1.2 id-tc26-gost-3410-2012-512-constants RFC 9058
1.2.643.7.1.2.1.2.0 id-tc26-gost-3410-2012-512-paramSetTest RFC 9058
1.2.643.7.1.2.1.2.1 id-tc26-gost-3410-2012-512-paramSetA RFC 9058
1.2.643.7.1.2.1.2.2 id-tc26-gost-3410-2012-512-paramSetB RFC 9058
1.2.643.7.1.2.1.2.3 id-tc26-gost-3410-2012-512-paramSetC RFC 9058
1.2.643.7.1.2.2 id-tc26-digest-constants RFC 9058
1.2.643.7.1.2.5 id-tc26-cipher-constants RFC 9058
1.2.643.7.1.2.5.1 id-tc26-gost-28147-constants RFC 9058
1.2.643.7.1.2.5.1.1 id-tc26-gost-28147-param-Z RFC 9058
1.2.804.2.1.1.1.1.1.1 dstu28147 DSTU 4145
1.2.804.2.1.1.1.1.1.1.2 dstu28147-ofb DSTU 4145
1.2.804.2.1.1.1.1.1.1.3 dstu28147-cfb DSTU 4145
1.2.804.2.1.1.1.1.1.1.5 dstu28147-wrap DSTU 4145
1.2.804.2.1.1.1.1.1.2 hmacWithDstu34311 DSTU 4145
1.2.804.2.1.1.1.1.2.1 dstu34311 DSTU 4145
1.2.804.2.1.1.1.1.3.1.1 dstu4145le DSTU 4145
1.2.840.10040.2.1 holdInstructionNone X9.57
1.2.840.10040.2.2 holdInstructionCallIssuer X9.57
1.2.840.10040.2.3 holdInstructionReject X9.57
1.2.840.10040.4 X9cm X9.57
1.2.840.10040.4.1 dsa RFC 3279
1.2.840.10040.4.3 dsa-with-SHA1 RFC 3279
1.2.840.10045.1.1 prime-field X9.62
1.2.840.10045.1.2 characteristic-two-field X9.62
1.2.840.10045.1.2.3 id-characteristic-two-basis X9.62
1.2.840.10045.1.2.3.1 onBasis X9.62
1.2.840.10045.1.2.3.2 tpBasis X9.62
1.2.840.10045.1.2.3.3 ppBasis X9.62
1.2.840.10045.2.1 ecPublicKey RFC 5480
1.2.840.10045.3.0.1 c2pnb163v1 X9.62
1.2.840.10045.3.0.10 c2pnb208w1 X9.62
1.2.840.10045.3.0.11 c2tnb239v1 X9.62
1.2.840.10045.3.0.12 c2tnb239v2 X9.62
1.2.840.10045.3.0.13 c2tnb239v3 X9.62
1.2.840.10045.3.0.14 c2onb239v4 X9.62
1.2.840.10045.3.0.15 c2onb239v5 X9.62
1.2.840.10045.3.0.16 c2pnb272w1 X9.62
1.2.840.10045.3.0.17 c2pnb304w1 X9.62
1.2.840.10045.3.0.18 c2tnb359v1 X9.62
1.2.840.10045.3.0.19 c2pnb368w1 X9.62
1.2.840.10045.3.0.2 c2pnb163v2 X9.62
1.2.840.10045.3.0.20 c2tnb431r1 X9.62
1.2.840.10045.3.0.3 c2pnb163v3 X9.62
1.2.840.10045.3.0.4 c2pnb176w1 X9.62
1.2.840.10045.3.0.5 c2tnb191v1 X9.62
1.2.840.10045.3.0.6 c2tnb191v2 X9.62
1.2.840.10045.3.0.7 c2tnb191v3 X9.62
1.2.840.10045.3.0.8 c2onb191v4 X9.62
1.2.840.10045.3.0.9 c2onb191v5 X9.62
1.2.840.10045.3.1.1 secp192r1 RFC 5480
1.2.840.10045.3.1.2 prime192v2 X9.62
1.2.840.10045.3.1.3 prime192v3 X9.62
1.2.840.10045.3.1.4 prime239v1 X9.62
1.2.840.10045.3.1.5 prime239v2 X9.62
1.2.840.10045.3.1.6 prime239v3 X9.62
1.2.840.10045.3.1.7 secp256r1 RFC 5480
1.2.840.10045.4.1 ecdsa-with-SHA1 X9.62
1.2.840.10045.4.2 ecdsa-with-Recommended X9.62
1.2.840.10045.4.3 ecdsa-with-Specified X9.62
1.2.840.10045.4.3.1 ecdsa-with-SHA224 RFC 5758
1.2.840.10045.4.3.2 ecdsa-with-SHA256 RFC 5758
1.2.840.10045.4.3.3 ecdsa-with-SHA384 RFC 5758
1.2.840.10045.4.3.4 ecdsa-with-SHA512 RFC 5758
1.2.840.10046.2.1 dhpublicnumber RFC 3279
1.2.840.113533.7.65.0 entrustVersInfo Entrust
1.2.840.113533.7.66.10 cast5-cbc RFC 2144
1.2.840.113533.7.66.12 pbeWithMD5AndCast5CBC RFC 2144
1.2.840.113533.7.66.13 id-PasswordBasedMAC RFC 4211
1.2.840.113533.7.66.30 id-DHBasedMac RFC 4210
1.2.840.113549.1.1 pkcs1 PKCS
1.2.840.113549.1.1.1 rsaEncryption RFC 8017
1.2.840.113549.1.1.10 RSASSA-PSS RFC 8017
1.2.840.113549.1.1.11 sha256WithRSAEncryption RFC 8017
1.2.840.113549.1.1.12 sha384WithRSAEncryption RFC 8017
1.2.840.113549.1.1.13 sha512WithRSAEncryption RFC 8017
1.2.840.113549.1.1.14 sha224WithRSAEncryption RFC 8017
1.2.840.113549.1.1.15 sha512-224WithRSAEncryption RFC 8017
1.2.840.113549.1.1.16 sha512-256WithRSAEncryption RFC 8017
1.2.840.113549.1.1.2 md2WithRSAEncryption RFC 8017
1.2.840.113549.1.1.3 md4WithRSAEncryption PKCS #1
1.2.840.113549.1.1.4 md5WithRSAEncryption RFC 8017
1.2.840.113549.1.1.5 sha1WithRSAEncryption RFC 8017
1.2.840.113549.1.1.6 rsaOAEPEncryptionSET PKCS #1
1.2.840.113549.1.1.7 RSAES-OAEP RFC 8017
1.2.840.113549.1.1.8 mgf1 RFC 8017
1.2.840.113549.1.1.9 pSpecified RFC 8017
1.2.840.113549.1.12.1.1 pbeWithSHAAnd128BitRC4 RFC 7292
1.2.840.113549.1.12.1.2 pbeWithSHAAnd40BitRC4 RFC 7292
1.2.840.113549.1.12.1.3 pbeWithSHAAnd3-KeyTripleDES-CBC RFC 7292
1.2.840.113549.1.12.1.4 pbeWithSHAAnd2-KeyTripleDES-CBC RFC 7292
1.2.840.113549.1.12.1.5 pbeWithSHAAnd128BitRC2-CBC RFC 7292
1.2.840.113549.1.12.1.6 pbeWithSHAAnd40BitRC2-CBC RFC 7292
1.2.840.113549.1.12.10.1.1 keyBag RFC 7292
1.2.840.113549.1.12.10.1.2 pkcs8ShroudedKeyBag RFC 7292
1.2.840.113549.1.12.10.1.3 certBag RFC 7292
1.2.840.113549.1.12.10.1.4 crlBag RFC 7292
1.2.840.113549.1.12.10.1.5 secretBag RFC 7292
1.2.840.113549.1.12.10.1.6 safeContentsBag RFC 7292
1.2.840.113549.1.3 pkcs3 PKCS
1.2.840.113549.1.3.1 dhKeyAgreement PKCS #3
1.2.840.113549.1.5 pkcs5 PKCS
1.2.840.113549.1.5.1 pbeWithMD2AndDES-CBC RFC 8018
1.2.840.113549.1.5.10 pbeWithSHA1AndDES-CBC RFC 8018
1.2.840.113549.1.5.11 pbeWithSHA1AndRC2-CBC RFC 8018
1.2.840.113549.1.5.12 PBKDF2 RFC 8018
1.2.840.113549.1.5.13 PBES2 RFC 8018
1.2.840.113549.1.5.14 PBMAC1 RFC 8018
1.2.840.113549.1.5.3 pbeWithMD5AndDES-CBC RFC 8018
1.2.840.113549.1.5.4 pbeWithMD2AndRC2-CBC RFC 8018
1.2.840.113549.1.5.6 pbeWithMD5AndRC2-CBC RFC 8018
1.2.840.113549.1.7 pkcs7 PKCS
1.2.840.113549.1.7.1 data RFC 5652
1.2.840.113549.1.7.2 signedData RFC 5652
1.2.840.113549.1.7.3 envelopedData RFC 5652
1.2.840.113549.1.7.4 signedAndEnvelopedData RFC 2315
1.2.840.113549.1.7.5 digestedData RFC 5652
1.2.840.113549.1.7.6 encryptedData RFC 5652
1.2.840.113549.1.9 pkcs9 PKCS
1.2.840.113549.1.9.1 emailAddress RFC 2985
1.2.840.113549.1.9.13 signingDescription RFC 2985
1.2.840.113549.1.9.14 extensionRequest RFC 2985
1.2.840.113549.1.9.15 smimeCapabilities RFC 8551
1.2.840.113549.1.9.16 SMIME PKCS
1.2.840.113549.1.9.16.0 id-smime-mod RFC 7107
1.2.840.113549.1.9.16.0.1 id-smime-mod-cms RFC 7107
1.2.840.113549.1.9.16.0.2 id-smime-mod-ess RFC 7107
1.2.840.113549.1.9.16.0.3 id-smime-mod-oid RFC 7107
1.2.840.113549.1.9.16.0.4 id-smime-mod-msg-v3 RFC 7107
1.2.840.113549.1.9.16.0.5 id-smime-mod-ets-eSignature-88 RFC 7107
1.2.840.113549.1.9.16.0.6 id-smime-mod-ets-eSignature-97 RFC 7107
1.2.840.113549.1.9.16.0.7 id-smime-mod-ets-eSigPolicy-88 RFC 7107
1.2.840.113549.1.9.16.0.8 id-smime-mod-ets-eSigPolicy-97 RFC 7107
1.2.840.113549.1.9.16.1 id-smime-ct RFC 7107
1.2.840.113549.1.9.16.1.1 id-smime-ct-receipt RFC 7107
1.2.840.113549.1.9.16.1.19 id-smime-ct-contentCollection RFC 7107
1.2.840.113549.1.9.16.1.2 id-smime-ct-authData RFC 7107
1.2.840.113549.1.9.16.1.23 authEnvelopedData RFC 5083
1.2.840.113549.1.9.16.1.24 id-ct-routeOriginAuthz RFC 7107
1.2.840.113549.1.9.16.1.26 id-ct-rpkiManifest RFC 7107
1.2.840.113549.1.9.16.1.27 id-ct-asciiTextWithCRLF RFC 7107
1.2.840.113549.1.9.16.1.28 id-ct-xml RFC 7107
1.2.840.113549.1.9.16.1.3 id-smime-ct-publishCert RFC 7107
1.2.840.113549.1.9.16.1.35 id-ct-rpkiGhostbusters RFC 7107
1.2.840.113549.1.9.16.1.36 id-ct-resourceTaggedAttest RFC 7107
1.2.840.113549.1.9.16.1.4 tstInfo RFC 3161
1.2.840.113549.1.9.16.1.47 id-ct-geofeedCSVwithCRLF RFC 7107
1.2.840.113549.1.9.16.1.48 id-ct-signedChecklist RFC 7107
1.2.840.113549.1.9.16.1.5 id-smime-ct-TDTInfo RFC 7107
1.2.840.113549.1.9.16.1.6 contentInfo RFC 5652
1.2.840.113549.1.9.16.1.7 id-smime-ct-DVCSRequestData RFC 7107
1.2.840.113549.1.9.16.1.8 id-smime-ct-DVCSResponseData RFC 7107
1.2.840.113549.1.9.16.1.9 compressedData RFC 3274
1.2.840.113549.1.9.16.2 id-smime-aa RFC 7107
1.2.840.113549.1.9.16.2.1 receiptRequest RFC 2634
1.2.840.113549.1.9.16.2.10 id-smime-aa-contentReference RFC 7107
1.2.840.113549.1.9.16.2.11 encrypKeyPref RFC 8551
1.2.840.113549.1.9.16.2.12 signingCertificate RFC 2634
1.2.840.113549.1.9.16.2.13 id-smime-aa-smimeEncryptCerts RFC 7107
1.2.840.113549.1.9.16.2.14 timeStampToken RFC 3161
1.2.840.113549.1.9.16.2.15 sigPolicyId RFC 5126
1.2.840.113549.1.9.16.2.16 commitmentType RFC 5126
1.2.840.113549.1.9.16.2.17 signerLocation RFC 5126
1.2.840.113549.1.9.16.2.18 id-smime-aa-ets-signerAttr RFC 7107
1.2.840.113549.1.9.16.2.19 id-smime-aa-ets-otherSigCert RFC 7107
1.2.840.113549.1.9.16.2.2 securityLabel RFC 2634
1.2.840.113549.1.9.16.2.20 id-smime-aa-ets-contentTimestamp RFC 7107
1.2.840.113549.1.9.16.2.21 id-smime-aa-ets-CertificateRefs RFC 7107
1.2.840.113549.1.9.16.2.22 id-smime-aa-ets-RevocationRefs RFC 7107
1.2.840.113549.1.9.16.2.23 id-smime-aa-ets-certValues RFC 7107
1.2.840.113549.1.9.16.2.24 id-smime-aa-ets-revocationValues RFC 7107
1.2.840.113549.1.9.16.2.25 id-smime-aa-ets-escTimeStamp RFC 7107
1.2.840.113549.1.9.16.2.26 id-smime-aa-ets-certCRLTimestamp RFC 7107
1.2.840.113549.1.9.16.2.27 id-smime-aa-ets-archiveTimeStamp RFC 7107
1.2.840.113549.1.9.16.2.28 id-smime-aa-signatureType RFC 7107
1.2.840.113549.1.9.16.2.29 id-smime-aa-dvcs-dvc RFC 7107
1.2.840.113549.1.9.16.2.3 id-smime-aa-mlExpandHistory RFC 7107
1.2.840.113549.1.9.16.2.4 contentHint RFC 2634
1.2.840.113549.1.9.16.2.47 signingCertificateV2 RFC 5035
1.2.840.113549.1.9.16.2.5 id-smime-aa-msgSigDigest RFC 7107
1.2.840.113549.1.9.16.2.6 id-smime-aa-encapContentType RFC 7107
1.2.840.113549.1.9.16.2.7 id-smime-aa-contentIdentifier RFC 7107
1.2.840.113549.1.9.16.2.8 id-smime-aa-macValue RFC 7107
1.2.840.113549.1.9.16.2.9 id-smime-aa-equivalentLabels RFC 7107
1.2.840.113549.1.9.16.3 id-smime-alg RFC 7107
1.2.840.113549.1.9.16.3.1 id-smime-alg-ESDHwith3DES RFC 7107
1.2.840.113549.1.9.16.3.17 id-alg-hss-lms-hashsig RFC 9708
1.2.840.113549.1.9.16.3.2 id-smime-alg-ESDHwithRC2 RFC 7107
1.2.840.113549.1.9.16.3.3 id-smime-alg-3DESwrap RFC 7107
1.2.840.113549.1.9.16.3.4 id-smime-alg-RC2wrap RFC 7107
1.2.840.113549.1.9.16.3.5 id-smime-alg-ESDH RFC 7107
1.2.840.113549.1.9.16.3.6 id-smime-alg-CMS3DESwrap RFC 7107
1.2.840.113549.1.9.16.3.7 id-smime-alg-CMSRC2wrap RFC 7107
1.2.840.113549.1.9.16.3.8 ZLIB RFC 7107
1.2.840.113549.1.9.16.3.9 id-alg-PWRI-KEK RFC 7107
1.2.840.113549.1.9.16.4 id-smime-cd RFC 7107
1.2.840.113549.1.9.16.4.1 id-smime-cd-ldap RFC 7107
1.2.840.113549.1.9.16.5 id-smime-spq RFC 7107
1.2.840.113549.1.9.16.5.1 id-smime-spq-ets-sqt-uri RFC 7107
1.2.840.113549.1.9.16.5.2 id-smime-spq-ets-sqt-unotice RFC 7107
1.2.840.113549.1.9.16.6 id-smime-cti RFC 7107
1.2.840.113549.1.9.16.6.1 id-smime-cti-ets-proofOfOrigin RFC 7107
1.2.840.113549.1.9.16.6.2 id-smime-cti-ets-proofOfReceipt RFC 7107
1.2.840.113549.1.9.16.6.3 id-smime-cti-ets-proofOfDelivery RFC 7107
1.2.840.113549.1.9.16.6.4 id-smime-cti-ets-proofOfSender RFC 7107
1.2.840.113549.1.9.16.6.5 id-smime-cti-ets-proofOfApproval RFC 7107
1.2.840.113549.1.9.16.6.6 id-smime-cti-ets-proofOfCreation RFC 7107
1.2.840.113549.1.9.2 unstructuredName RFC 2985
1.2.840.113549.1.9.20 friendlyName RFC 2985
1.2.840.113549.1.9.21 localKeyId RFC 2985
1.2.840.113549.1.9.22.1 x509Certificate RFC 7292
1.2.840.113549.1.9.22.2 sdsiCertificate RFC 7292
1.2.840.113549.1.9.23.1 x509Crl RFC 7292
1.2.840.113549.1.9.3 contentType RFC 2985
1.2.840.113549.1.9.4 messageDigest RFC 2985
1.2.840.113549.1.9.5 signingTime RFC 2985
1.2.840.113549.1.9.6 counterSignature RFC 2985
1.2.840.113549.1.9.7 challengePassword RFC 2985
1.2.840.113549.1.9.8 unstructuredAddress RFC 2985
1.2.840.113549.1.9.9 extendedCertificateAttributes RFC 2985
1.2.840.113549.2.10 hmacWithSHA384 RFC 8018
1.2.840.113549.2.11 hmacWithSHA512 RFC 8018
1.2.840.113549.2.12 hmacWithSHA512-224 RFC 8018
1.2.840.113549.2.13 hmacWithSHA512-256 RFC 8018
1.2.840.113549.2.2 md2 RFC 8017
1.2.840.113549.2.4 md4 RSA Laboratories
1.2.840.113549.2.5 md5 RFC 8017
1.2.840.113549.2.6 hmacWithMD5 RSA Laboratories
1.2.840.113549.2.7 hmacWithSHA1 RFC 8018
1.2.840.113549.2.8 hmacWithSHA224 RFC 8018
1.2.840.113549.2.9 hmacWithSHA256 RFC 8018
1.2.840.113549.3.10 des-cdmf RSA Laboratories
1.2.840.113549.3.2 rc2CBC RFC 8018
1.2.840.113549.3.4 rc4 RSA Laboratories
1.2.840.113549.3.7 des-EDE3-CBC RFC 8018
1.2.840.113549.3.8 rc5-cbc RSA Laboratories
1.2.840.113554.1.2.2 krb5 RFC 4121
1.2.840.113556.1.4.319 pagedResults RFC 2696
1.2.840.113556.1.4.473 sortKeyRequest RFC 2891
1.2.840.113556.1.4.474 sortKeyResponse RFC 2891
1.2.840.113635.100.1.16 appleCodeSigningPolicy Apple
1.2.840.113635.100.1.3 appleSSLPolicy Apple
1.2.840.113635.100.4.1 appleCodeSigning Apple
1.2.840.113635.100.4.1.1 appleCodeSigningDevelopment Apple
1.2.840.113635.100.4.1.2 appleSoftwareUpdateSigning Apple
1.2.840.113635.100.4.1.3 appleCodeSigningThirdParty Apple
1.2.840.113635.100.4.1.4 appleResourceSigning Apple
1.2.840.113635.100.4.2 appleIChatSigning Apple
1.2.840.113635.100.4.3 appleIChatEncryption Apple
1.2.840.113635.100.4.4 appleSystemIdentity Apple
1.2.840.113635.100.5.1 appleCertificatePolicyID Apple
1.2.840.113635.100.6.1.12 appleMacDeveloper Apple
1.2.840.113635.100.6.1.13 appleDeveloperIDApplication Apple
1.2.840.113635.100.6.1.14 appleDeveloperIDInstaller Apple
1.2.840.113635.100.6.1.2 appleADCDeveloperSigning Apple
1.2.840.113635.100.6.1.4 appleIPhoneDistribution Apple
1.2.840.113635.100.6.1.7 appleMacAppDistribution Apple
1.2.840.113635.100.6.1.9 appleMacAppStore Apple
1.2.840.113635.100.6.11.1 appleReceiptSigning Apple
1.2.840.113635.100.6.2.1 appleWWDRIntermediate Apple
1.2.840.113635.100.6.2.6 appleDeveloperIDIntermediate Apple
1.2.840.113635.100.6.29 applePayLeaf Apple
1.2.840.113635.100.6.3.1 applePushDevelopment Apple
1.2.840.113635.100.6.3.2 applePushProduction Apple
1.2.840.113635.100.8.2 appleAppAttestNonce Apple
1.2.840.48018.1.2.2 ms-krb5 Microsoft
";
